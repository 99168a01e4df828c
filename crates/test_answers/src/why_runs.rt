// What `why` prints of acts of runs, with the lines, the names and the labels of their texts.

use crate::checks::passes;
use lrc_acts::reading::acts_of;
use lrc_judge::are_in_range;
use lrc_page::Size;
use lrc_source::read_text::ReadText;
use lrc_source::source::Source;
use lrc_source::text::SourceText;
use lrc_why_run::why_run;
use lrc_why_text::asked::Asked;
use lrc_why_text::fault::WhyFault;
use std::alloc::Global;

/// The text of a program, acts of it, what is asked of them, and what is told.
struct Row {
    name: &'static str,
    text: &'static [u8],
    acts: &'static [u8],
    nodes: u8,
    page: Size,
    asked: Asked,
    told: &'static [u8],
}

const LATE: &[u8] =
    b"# Node 1 asks for the lock while node 0 goes on after it gave it back. It is told what node 0 did up to the release, and\n# not that it wrote word 1 afterwards: it reads 1, and then 0.\nwords 2;\nlocks 1;\nif me == 0 {\n    acquire 0;\n    [0] = 1;\n    release 0;\n    [1] = 2;\n} else {\n    acquire 0;\n    x = [0];\n    y = [1];\n    release 0;\n    print x;\n    print y;\n}\n";

const LATE_ACTS: &[u8] =
    b"0 quiet\n0 acquire 0\n0 write 0 1\n0 release 0\n0 write 1 2\n1 quiet\n1 acquire 0\n1 read 0 1\n1 read 1 0\n1 release 0\n1 print 1\n1 print 0\n1 end\n0 end\n";

const HANDED_ON: &[u8] =
    b"#: word 0 message\n#: lock 0 first\n#: lock 1 second\nwords 2; locks 2;\nif me == 0 { acquire 0; [0] = 7; release 0; }\nif me == 1 { while x == 0 { acquire 0; x = [0]; release 0; } acquire 1; [1] = x; release 1; }\nif me == 2 { while y == 0 { acquire 1; y = [1]; release 1; } z = [0]; [0] = z + 1; print z; }\n";

const HANDED_ON_ACTS: &[u8] =
    b"0 quiet\n0 acquire 0\n0 write 0 7\n2 quiet\n0 release 0\n1 quiet\n0 quiet\n1 quiet\n2 quiet\n0 quiet\n0 end\n2 quiet\n1 quiet\n2 quiet\n1 acquire 0\n1 read 0 7\n1 release 0\n2 acquire 1\n1 quiet\n2 read 1 0\n2 release 1\n1 acquire 1\n1 write 1 7\n2 quiet\n1 release 1\n1 quiet\n1 end\n2 acquire 1\n2 read 1 7\n2 release 1\n2 quiet\n2 read 0 7\n2 write 0 8\n2 print 7\n2 end\n";

const ROWS: &[Row] = &[
    Row {
        name: "a stale read",
        text: LATE,
        acts: LATE_ACTS,
        nodes: 2,
        page: Size::Words64,
        asked: Asked { act: 8, and: None },
        told: b"act 8, node 1, line 13: read 1: 0\n  gives 0: no write of word 1 happens before it (last written: 2, by act 4)\n  races with act 4, node 0, line 9: write 1: 2\n    act 4 is in interval 3 of node 0, and act 8 knows node 0 up to interval 2\n    held at act 4: no lock, at act 8: lock 0; both before any barrier\n  to order them: one lock held at both, a barrier between, or a lock that node 0 releases after act 4 and node 1 acquires after that and before act 8\n  interval 2 of node 1, time 2,1\n  knows node 0 up to interval 2, since act 6, line 11: acquire 0, by acts 3, 6\n",
    },
    Row {
        name: "a print, by the read that set its name",
        text: LATE,
        acts: LATE_ACTS,
        nodes: 2,
        page: Size::Words64,
        asked: Asked { act: 11, and: None },
        told: b"act 11, node 1, line 16: print 0\n  y is 0, set by act 8, line 13: read 1: 0\n  interval 3 of node 1, time 2,2\n  knows node 0 up to interval 2, since act 6, line 11: acquire 0, by acts 3, 6\n",
    },
    Row {
        name: "a condition that does not hold",
        text: LATE,
        acts: LATE_ACTS,
        nodes: 2,
        page: Size::Words64,
        asked: Asked { act: 5, and: None },
        told: b"act 5, node 1, line 5: quiet\n  the condition does not hold\n  interval 1 of node 1, time 0,0\n  knows nothing of node 0\n",
    },
    Row {
        name: "a read, known by two locks",
        text: HANDED_ON,
        acts: HANDED_ON_ACTS,
        nodes: 3,
        page: Size::Words64,
        asked: Asked { act: 31, and: None },
        told: b"act 31, node 2, line 7: read 0 (message): 7\n  gives 7, of act 2, node 0, line 5: write 0 (message): 7, known since act 27, line 7: acquire 1 (second), by acts 2, 4, 14, 24, 27\n  interval 5 of node 2, time 2,4,4\n  knows node 0 up to interval 2, since act 27, line 7: acquire 1 (second), by acts 4, 14, 24, 27\n  knows node 1 up to interval 4, since act 27, line 7: acquire 1 (second), by acts 24, 27\n",
    },
    Row {
        name: "a chain, with labels",
        text: HANDED_ON,
        acts: HANDED_ON_ACTS,
        nodes: 3,
        page: Size::Words64,
        asked: Asked {
            act: 2,
            and: Some(31),
        },
        told: b"act 2, node 0, line 5: write 0 (message): 7\nact 31, node 2, line 7: read 0 (message): 7\n  act 2 happens before act 31:\n    in node 0: act 4, line 5: release 0 (first)\n    by lock 0 (first): act 14, node 1, line 6: acquire 0 (first)\n    in node 1: act 24, line 6: release 1 (second)\n    by lock 1 (second): act 27, node 2, line 7: acquire 1 (second)\n    in node 2: act 31, line 7: read 0 (message): 7\n",
    },
    Row {
        name: "two acts of one node",
        text: LATE,
        acts: LATE_ACTS,
        nodes: 2,
        page: Size::Words64,
        asked: Asked {
            act: 2,
            and: Some(4),
        },
        told: b"act 2, node 0, line 7: write 0: 1\nact 4, node 0, line 9: write 1: 2\n  act 2 comes before act 4 in node 0\n",
    },
    Row {
        name: "a write of which nobody can learn",
        text: LATE,
        acts: LATE_ACTS,
        nodes: 2,
        page: Size::Words64,
        asked: Asked { act: 4, and: None },
        told: b"act 4, node 0, line 9: write 1: 2\n  races with act 8, node 1, line 13: read 1: 0\n    act 4 is in interval 3 of node 0, and act 8 knows node 0 up to interval 2\n    held at act 4: no lock, at act 8: lock 0; both before any barrier\n  to order them: one lock held at both, a barrier between, or a lock that node 0 releases after act 4 and node 1 acquires after that and before act 8\n  interval 3 of node 0, time 2,0\n  knows nothing of node 1\n  nobody can learn of it: node 0 releases no lock and comes to no barrier after it\n",
    },
    Row {
        name: "a name set from itself: the value before",
        text: b"words 1;\nlocks 0;\nk = 5;\nk = k + 1;\n",
        acts: b"0 quiet\n0 quiet\n0 end\n",
        nodes: 1,
        page: Size::Words64,
        asked: Asked { act: 1, and: None },
        told: b"act 1, node 0, line 4: quiet\n  k is 5, set by act 0, line 3: quiet\n  sets k to 6\n  interval 1 of node 0, time 0\n",
    },
    Row {
        name: "a name set by a loop: the last setting",
        text: b"words 1;\nlocks 0;\nk = 5;\nwhile k < 7 {\n  k = k + 1;\n}\nprint k;\n",
        acts: b"0 quiet\n0 quiet\n0 quiet\n0 quiet\n0 quiet\n0 quiet\n0 print 7\n0 end\n",
        nodes: 1,
        page: Size::Words64,
        asked: Asked { act: 6, and: None },
        told: b"act 6, node 0, line 7: print 7\n  k is 7, set by act 4, line 5: quiet\n  interval 1 of node 0, time 0\n",
    },
    Row {
        name: "names in the order of the text, one never set",
        text: b"words 9;\nlocks 0;\nb = 2;\na = b + 1;\n[a * b] = b;\n[c + a] = b;\n",
        acts: b"0 quiet\n0 quiet\n0 write 6 2\n0 write 3 2\n0 end\n",
        nodes: 1,
        page: Size::Words64,
        asked: Asked { act: 3, and: None },
        told: b"act 3, node 0, line 6: write 3: 2\n  b is 2, set by act 0, line 3: quiet\n  a is 3, set by act 1, line 4: quiet\n  c is 0, never set\n  interval 1 of node 0, time 0\n",
    },
    Row {
        name: "a trap: what it divided by",
        text: b"words 1;\nlocks 0;\nprint 6;\n[me + 1] = 9;\n",
        acts: b"0 print 6\n0 trap 2\n",
        nodes: 1,
        page: Size::Words64,
        asked: Asked { act: 1, and: None },
        told: b"act 1, node 0, line 4: trap 2\n  word out of range\n  interval 1 of node 0, time 0\n",
    },
    Row {
        name: "pages of 256 words",
        text: b"words 300;\nlocks 0;\n[me * 64] = 1;\n[me + 255] = 2;\nbarrier;\nx = [0];\n",
        acts: b"0 write 0 1\n1 write 64 1\n0 write 255 2\n1 write 256 2\n0 arrive\n1 arrive\n0 depart\n1 depart\n0 read 0 1\n1 read 0 1\n0 end\n1 end\n",
        nodes: 2,
        page: Size::Words256,
        asked: Asked { act: 7, and: None },
        told: b"act 7, node 1, line 5: depart\n  goes on from barrier 1\n  interval 2 of node 1, time 1,1\n  learns interval 1 of node 0, by acts 4, 7\n    writes page 0: words 0, 255\n",
    },
    Row {
        name: "labels of words, of several words and of a lock",
        text: b"#: word 0 count\n#:words 1 3 buffer\n#: lock 0 mutex # no\n#: lock 0 mutex\n#: word 0 again\n#: word 9 far\n#: word 3 inside\nwords 5; locks 2; #: word 4 flag\nacquire 0;\n[0] = 1; [1] = 2; [3] = 3; [2] = 4; [4] = 5;\nrelease 0;\n",
        acts: b"0 acquire 0\n0 write 0 1\n0 write 1 2\n0 write 3 3\n0 write 2 4\n0 write 4 5\n0 release 0\n0 end\n",
        nodes: 1,
        page: Size::Words64,
        asked: Asked { act: 6, and: None },
        told: b"act 6, node 0, line 11: release 0 (mutex)\n  interval 2 of node 0, closed by this act, time 2\n    writes page 0: words 0 (count), 1 (buffer[0]), 2 (buffer[1]), 3 (buffer[2]), 4 (flag)\n",
    },
];

/// Positions that are asked of acts of the first program above, and the first of them that is past the last act.
struct Missing {
    name: &'static str,
    asked: Asked,
    position: usize,
}

const MISSING: &[Missing] = &[
    Missing {
        name: "past the last act",
        asked: Asked { act: 14, and: None },
        position: 14,
    },
    Missing {
        name: "the second past the last act",
        asked: Asked {
            act: 13,
            and: Some(14),
        },
        position: 14,
    },
    Missing {
        name: "both past the last act: the first that is asked of",
        asked: Asked {
            act: 100,
            and: Some(99),
        },
        position: 100,
    },
];

/// Whether the parts are this text, one behind the other.
pub(crate) fn is_text(parts: &[Vec<u8>], text: &[u8]) -> bool {
    let mut rest = text;
    for part in parts {
        match rest.strip_prefix(part.as_slice()) {
            Some(behind) => rest = behind,
            None => return false,
        }
    }
    rest.is_empty()
}

// What is answered of acts of a program, unless one of the texts is bad or an act is asked of twice.
fn answer(
    alloc: Global,
    text: &[u8],
    acts: &[u8],
    nodes: u8,
    page: Size,
    asked: Asked,
) -> Option<Result<Vec<Vec<u8>>, WhyFault>> {
    let text = ReadText::written(text);
    answer_to(alloc, &text, acts, nodes, page, asked)
}

/// What is answered of acts of the program that this text is of, unless one of the texts is bad or an act is asked of twice.
pub(crate) fn answer_to(
    alloc: Global,
    text: &ReadText<'_>,
    acts: &[u8],
    nodes: u8,
    page: Size,
    asked: Asked,
) -> Option<Result<Vec<Vec<u8>>, WhyFault>> {
    let Ok(read) = SourceText::read(alloc, text) else {
        return None;
    };
    answer_of(alloc, &read, acts, nodes, page, asked)
}

// The same of a text that is read.
fn answer_of(
    alloc: Global,
    read: &SourceText<'_>,
    acts: &[u8],
    nodes: u8,
    page: Size,
    asked: Asked,
) -> Option<Result<Vec<Vec<u8>>, WhyFault>> {
    if asked.and == Some(asked.act) {
        return None;
    }
    let Ok(source) = Source::of(alloc, read) else {
        return None;
    };
    let Ok(lined) = acts_of(alloc, acts, Some(u32::from(nodes))) else {
        return None;
    };
    let acts = lined.acts.as_slice();
    if !are_in_range(acts) {
        return None;
    }
    Some(why_run(alloc, &source, nodes, page, acts, asked))
}

fn is_told(alloc: Global, row: &Row) -> bool {
    match answer(alloc, row.text, row.acts, row.nodes, row.page, row.asked) {
        Some(Ok(parts)) => is_text(&parts, row.told),
        _ => false,
    }
}

fn is_missing(alloc: Global, row: &Missing) -> bool {
    match answer(alloc, LATE, LATE_ACTS, 2, Size::Words64, row.asked) {
        Some(Err(fault)) => fault == WhyFault::NoAct(row.position, 14),
        _ => false,
    }
}

// The name of the first row that is not told.
fn first_wrong(alloc: Global, rows: &'static [Row]) -> Option<&'static str> {
    for row in rows {
        if !is_told(alloc, row) {
            return Some(row.name);
        }
    }
    None
}

fn first_found(alloc: Global, rows: &'static [Missing]) -> Option<&'static str> {
    for row in rows {
        if !is_missing(alloc, row) {
            return Some(row.name);
        }
    }
    None
}

#[test]
fn what_is_told_of_runs(rt: HostRuntime) {
    passes(&rt, first_wrong(rt.alloc(), ROWS));
}

#[test]
fn positions_past_the_last_act(rt: HostRuntime) {
    passes(&rt, first_found(rt.alloc(), MISSING));
}
