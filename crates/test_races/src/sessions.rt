// What is printed of traces, in blocks of any size.

use lrc_races_text::asked::{Asked, Layout, Sought};
use lrc_races_text::form::Form;
use lrc_races_text::halt::Halt;
use lrc_races_text::session::Session;
use std::alloc::Global;

const ALL: Asked = Asked {
    sought: Sought::AllRaces,
    group: false,
    layout: Layout::Words,
    strict: false,
};

const ALL_BY_GROUP: Asked = Asked { group: true, ..ALL };

const SURE: Asked = Asked {
    sought: Sought::SureRaces,
    ..ALL
};

const OBJECTS: Asked = Asked {
    layout: Layout::Objects,
    ..ALL
};

const SURE_OBJECTS_BY_GROUP: Asked = Asked {
    sought: Sought::SureRaces,
    group: true,
    layout: Layout::Objects,
    strict: false,
};

const STRICT: Asked = Asked {
    strict: true,
    ..ALL
};

const STRICT_BY_GROUP: Asked = Asked {
    group: true,
    ..STRICT
};

// A trace, how it is read, and what is printed of it, with the status or the fault.
struct Row {
    name: &'static str,
    form: Form,
    asked: Asked,
    trace: &'static [u8],
    printed: &'static [u8],
    end: Result<u8, u64>,
}

const ROWS: &[Row] = &[
    Row {
        name: "two writes race",
        form: Form::Std,
        asked: ALL,
        trace: b"T1|w(x)|1\nT2|w(x)|2\n",
        printed: b"race x: line 1 T1 write at 1, line 2 T2 write at 2\nraces 1, events 2, threads 2, variables 1, locks 0, barriers 0\n",
        end: Ok(3),
    },
    Row {
        name: "the last line has no line feed, and no location",
        form: Form::Std,
        asked: ALL,
        trace: b"# a comment\n\nT1|w(x)\r\nT2|r(x)|",
        printed: b"race x: line 3 T1 write, line 4 T2 read\nraces 1, events 2, threads 2, variables 1, locks 0, barriers 0\n",
        end: Ok(3),
    },
    Row {
        name: "a bad line behind a race",
        form: Form::Std,
        asked: ALL,
        trace: b"T1|w(x)|1\nT2|w(x)|2\nT2|w(y\nT1|w(y)|1\n",
        printed: b"race x: line 1 T1 write at 1, line 2 T2 write at 2\n",
        end: Err(3),
    },
    Row {
        name: "a bad line, where groups are asked for",
        form: Form::Std,
        asked: ALL_BY_GROUP,
        trace: b"T1|w(x)|1\nT2|w(x)|2\nT2|w(y",
        printed: b"",
        end: Err(3),
    },
    Row {
        name: "groups, in the order in which they are first told",
        form: Form::Std,
        asked: ALL_BY_GROUP,
        trace: b"T1|w(x)|b\nT1|w(y)|b\nT2|r(x)|a\nT2|r(y)|a\nT3|w(x)|\n",
        printed: b"races b write, a read: 2, first x lines 1, 3\nraces b write, - write: 1, first x lines 1, 5\nraces a read, - write: 1, first x lines 3, 5\nraces 4, events 5, threads 3, variables 2, locks 0, barriers 0\n",
        end: Ok(3),
    },
    Row {
        name: "no race, and a release of what is not held",
        form: Form::Std,
        asked: ALL,
        trace: b"T1|acq(L)|1\nT1|w(x)|2\nT1|rel(L)|3\nT1|rel(L)|4\nT2|fork(T3)|5\nT2|arrive(B)|6\n",
        printed: b"not well formed at line 4: lock L is not held by thread T1\nraces 0, events 6, threads 3, variables 1, locks 1, barriers 1\n",
        end: Ok(0),
    },
    Row {
        name: "acts, their numbers without leading zeros",
        form: Form::Acts,
        asked: ALL,
        trace: b"0 write 007 1 # line 09\n 12 read 7 0\t# line 4\n\n1 arrive\n1 trap 5",
        printed: b"race word 7: line 1 node 0 write at 09, line 2 node 12 read at 4\nnot well formed at line 5: thread 1 waits at barrier 0 since line 4\nraces 1, events 4, threads 3, variables 1, locks 0, barriers 1\n",
        end: Ok(3),
    },
    Row {
        name: "an act of a lock past 32 bits",
        form: Form::Acts,
        asked: ALL,
        trace: b"0 acquire 4294967295\n0 release 4294967296\n",
        printed: b"",
        end: Err(2),
    },
    Row {
        name: "what is read behind a pointer that was read is no sure race",
        form: Form::Std,
        asked: SURE,
        trace: b"A|acq(m)|7\nA|r(p)|7\nA|w(o)|8\nA|w(p)|9\nA|rel(m)|10\nB|r(p)|5\nB|r(o)|12\n",
        printed: b"race p: line 4 A write at 9, line 6 B read at 5\nraces 1, events 7, threads 2, variables 2, locks 1, barriers 0\n",
        end: Ok(3),
    },
    Row {
        name: "a race as an object, and no location",
        form: Form::Std,
        asked: OBJECTS,
        trace: b"T1|w(x)|a:1\nT2|r(x)\n",
        printed: b"{\"race\":{\"variable\":\"x\",\"first\":{\"line\":1,\"thread\":\"T1\",\"kind\":\"write\",\"location\":\"a:1\"},\"second\":{\"line\":2,\"thread\":\"T2\",\"kind\":\"read\",\"location\":null}}}\n{\"races\":1,\"events\":2,\"threads\":2,\"variables\":1,\"locks\":0,\"barriers\":0}\n",
        end: Ok(3),
    },
    Row {
        name: "what no program gives, as an object, with signs that are spelled",
        form: Form::Std,
        asked: OBJECTS,
        trace: b"T1|rel(\"l\")\nT1|w(x)\n",
        printed: b"{\"ill\":{\"line\":1,\"reason\":\"lock \\\"l\\\" is not held by thread T1\"}}\n{\"races\":0,\"events\":2,\"threads\":1,\"variables\":1,\"locks\":1,\"barriers\":0}\n",
        end: Ok(0),
    },
    Row {
        name: "of acts an object has the numbers alone",
        form: Form::Acts,
        asked: OBJECTS,
        trace: b"0 write 7 1 # line 3\n1 read 7 1\n",
        printed: b"{\"race\":{\"variable\":\"7\",\"first\":{\"line\":1,\"thread\":\"0\",\"kind\":\"write\",\"location\":\"3\"},\"second\":{\"line\":2,\"thread\":\"1\",\"kind\":\"read\",\"location\":null}}}\n{\"races\":1,\"events\":2,\"threads\":2,\"variables\":1,\"locks\":0,\"barriers\":0}\n",
        end: Ok(3),
    },
    Row {
        name: "sure races in groups, as objects",
        form: Form::Std,
        asked: SURE_OBJECTS_BY_GROUP,
        trace: b"T1|w(x)|a\nT1|w(f)|b\nT2|r(f)|c\nT2|r(x)|d\n",
        printed: b"{\"races\":{\"first\":{\"location\":\"b\",\"kind\":\"write\"},\"second\":{\"location\":\"c\",\"kind\":\"read\"},\"count\":1,\"variable\":\"f\",\"lines\":[2,3]}}\n{\"races\":1,\"events\":4,\"threads\":2,\"variables\":2,\"locks\":0,\"barriers\":0}\n",
        end: Ok(3),
    },
    Row {
        name: "strictly, where no event is wrong",
        form: Form::Std,
        asked: STRICT,
        trace: b"T1|w(x)\nT2|w(x)\n",
        printed: b"race x: line 1 T1 write, line 2 T2 write\nraces 1, events 2, threads 2, variables 1, locks 0, barriers 0\n",
        end: Ok(3),
    },
    Row {
        name: "strictly, what is wrong is not reported itself, and nothing behind it",
        form: Form::Std,
        asked: STRICT,
        trace: b"T2|w(x)\nT3|r(x)\nT3|join(T1)\n\nT1|w(x)\nT4|w(x)\nT4|w\n",
        printed: b"race x: line 1 T2 write, line 2 T3 read\n",
        end: Err(5),
    },
    Row {
        name: "strictly, a bad line first",
        form: Form::Std,
        asked: STRICT,
        trace: b"T1|w(x)\nT1|w\nT1|rel(l)\n",
        printed: b"",
        end: Err(2),
    },
    Row {
        name: "strictly, no groups behind a last line that is wrong",
        form: Form::Std,
        asked: STRICT_BY_GROUP,
        trace: b"T1|w(x)|a\nT2|w(x)|b\nT1|fork(T2)",
        printed: b"",
        end: Err(3),
    },
    Row {
        name: "strictly, of acts",
        form: Form::Acts,
        asked: STRICT,
        trace: b"0 release 3\n",
        printed: b"",
        end: Err(1),
    },
    Row {
        name: "nothing",
        form: Form::Std,
        asked: ALL_BY_GROUP,
        trace: b"",
        printed: b"races 0, events 0, threads 0, variables 0, locks 0, barriers 0\n",
        end: Ok(0),
    },
];

fn take_all(
    session: &mut Session,
    trace: &[u8],
    size: usize,
    out: &mut Vec<u8>,
) -> Result<(), Halt> {
    let mut left = trace;
    for _ in 0..trace.len() {
        if left.len() > size {
            let (block, behind) = left.split_at(size);
            session.take(block, out)?;
            left = behind;
        }
    }
    session.take(left, out)
}

fn play(session: &mut Session, trace: &[u8], size: usize, out: &mut Vec<u8>) -> Result<u8, Halt> {
    take_all(session, trace, size, out)?;
    session.finish(out)
}

fn is_end(found: Result<u8, Halt>, wanted: Result<u8, u64>) -> bool {
    match (found, wanted) {
        (Ok(status), Ok(other)) => status == other,
        (Err(Halt::BadEvent(line, _why)), Err(other)) => line == other,
        (Err(Halt::IllFormed(ill)), Err(other)) => ill.line == other,
        _ => false,
    }
}

// Whether the trace is played as the row says, in blocks of this size.
fn plays(alloc: Global, row: &Row, size: usize) -> bool {
    let mut session = Session::new(alloc, row.form, row.asked);
    let mut out = Vec::new(alloc);
    let end = play(&mut session, row.trace, size, &mut out);
    is_end(end, row.end) && out.as_slice() == row.printed
}

#[test]
fn traces_are_printed_whatever_their_blocks(rt: HostRuntime) {
    for row in ROWS {
        for size in [1, 7, 65536] {
            assert!(rt; plays(rt.alloc(), row, size), "{}", row.name);
        }
    }
}
