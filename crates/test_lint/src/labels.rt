// Label lines: which say something, which say nothing and why, and how labels are shown.

use crate::checks::holds;
use lrc_labels::label::{IdleLabel, Labels, Reason};
use lrc_labels::{
    push_lock_label, push_lock_member, push_numbered_lock, push_numbered_word, push_word_label,
    push_word_member, read_labels,
};
use std::alloc::{AllocError, Global};

/// A label line that says nothing: its line, its column, and why.
type Idle = (usize, usize, Reason);

/// Whether of the label lines of a text so many say something, and exactly these say nothing.
fn are_labels(
    alloc: Global,
    text: &[u8],
    words: u32,
    locks: u8,
    said: usize,
    wanted: &[Idle],
) -> bool {
    match read_labels(alloc, text, words, locks) {
        Ok(labels) => labels.said.len() == said && are_idle(&labels.idle, wanted),
        Err(_) => false,
    }
}

fn are_idle(idle: &[IdleLabel], wanted: &[Idle]) -> bool {
    idle.len() == wanted.len()
        && idle.iter().zip(wanted).all(|(found, want)| (found.line, found.column, found.reason)
            == *want)
}

/// Whether this is written behind the number of a word, and this behind the number of a lock.
fn shows(alloc: Global, text: &[u8], word: u32, lock: u8, wanted: &[u8]) -> bool {
    match read_labels(alloc, text, 65_536, 64) {
        Ok(labels) => match shown(alloc, &labels, word, lock) {
            Ok(found) => found.as_slice() == wanted,
            Err(_) => false,
        },
        Err(_) => false,
    }
}

fn shown(alloc: Global, labels: &Labels<'_>, word: u32, lock: u8) -> Result<Vec<u8>, AllocError> {
    let mut out = Vec::new(alloc);
    push_word_label(&mut out, &labels.said, word)?;
    push_lock_label(&mut out, &labels.said, lock)?;
    Ok(out)
}

const EARLIER: &[u8] =
    b"words 4; locks 2;\n#: words 0 2 a\n#: words 2 3 b\n#: word 1 c\n#: word 3 a\n#: lock 0 a\n#: lock 0 b\n#: lock 0 d\n#: lock 1 b\n#: word 3 c\n";

const EARLIER_IDLE: &[Idle] = &[
    (3, 1, Reason::WordTaken),
    (4, 1, Reason::WordTaken),
    (5, 1, Reason::NameTaken),
    (6, 1, Reason::NameTaken),
    (8, 1, Reason::LockTaken),
    (9, 1, Reason::NameTaken),
];

#[test]
fn an_earlier_label_has_it(rt: HostRuntime) {
    holds(&rt, are_labels(rt.alloc(), EARLIER, 4, 2, 3, EARLIER_IDLE));
}

const LIMITS: &[u8] =
    b"words 4; locks 2;\n#: word 3 a\n#: word 4 b\n#: words 2 1 c\n#: words 1 4 d\n#: words 1 1 e\n#: lock 1 f\n#: lock 2 g\n#: lock 18446744073709551616 h\n";

const LIMITS_IDLE: &[Idle] = &[
    (3, 1, Reason::NoSuchWord),
    (4, 1, Reason::NoSuchWord),
    (5, 1, Reason::NoSuchWord),
    (8, 1, Reason::NoSuchLock),
    (9, 1, Reason::NoSuchLock),
];

#[test]
fn both_sides_of_the_limits(rt: HostRuntime) {
    holds(&rt, are_labels(rt.alloc(), LIMITS, 4, 2, 3, LIMITS_IDLE));
}

const FORMS: &[u8] =
    b"words 4; locks 2;\n#:\n#: word\n#:word 0\n#: word 0 a b\n#: word x a\n#: Word 0 a\n#: word -1 a\n#: words 0 a\n";

const MORE_FORMS: &[u8] =
    b"#: words 0 1 2 a\n#: word 0 print\n#: word 0 me\n#: word 0 3x\n#: word 0 a-b\n#: word 0 a[0]\n#: lock 0 locks\n#: word 0 a #\n";

const NO_LABELS: &[u8] = b"# : word 0 a\n##: word 0 a\n # word 0 a\n";

#[test]
fn other_forms(rt: HostRuntime) {
    holds(&rt, all_of_another_form(rt.alloc(), FORMS, 8));
    holds(&rt, all_of_another_form(rt.alloc(), MORE_FORMS, 8));
    holds(&rt, all_of_another_form(rt.alloc(), NO_LABELS, 0));
}

fn all_of_another_form(alloc: Global, text: &[u8], count: usize) -> bool {
    match read_labels(alloc, text, 4, 2) {
        Ok(labels) => {
            labels.said.is_empty()
                && labels.idle.len() == count
                && labels.idle.iter().all(|idle| idle.reason == Reason::AnotherForm
                    && idle.column == 1)
        }
        Err(_) => false,
    }
}

const BLANKS: &[u8] =
    b"words 4; locks 2;\n#:word 0 a\r\n#:\t words \t 01\t0002\r b \r\r\n  acquire 0; release 0; #: lock 0 c\n  #: word 0 d\n";

#[test]
fn blanks_of_each_kind(rt: HostRuntime) {
    holds(
        &rt,
        are_labels(rt.alloc(), BLANKS, 4, 2, 3, &[(5, 3, Reason::WordTaken)]),
    );
    holds(&rt, shows(rt.alloc(), BLANKS, 2, 0, b" (b[1]) (c)"));
}

const BYTES: &[u8] =
    b"words 4; locks 2;\n#: word 0 \xe4\n#: \xff word 0 a\n#: word 0 a \xc3\n#: word 0 a";

#[test]
fn bytes_that_are_no_text(rt: HostRuntime) {
    holds(
        &rt,
        are_labels(
            rt.alloc(),
            BYTES,
            4,
            2,
            1,
            &[
                (2, 1, Reason::AnotherForm),
                (3, 1, Reason::AnotherForm),
                (4, 1, Reason::AnotherForm),
            ],
        ),
    );
}

#[test]
fn one_word_and_many(rt: HostRuntime) {
    let text = b"#: words 0 0 a\n#: words 1 65535 b\n#: lock 63 m\n";
    holds(&rt, shows(rt.alloc(), text, 0, 63, b" (a[0]) (m)"));
    holds(&rt, shows(rt.alloc(), text, 65_535, 62, b" (b[65534])"));
    holds(&rt, shows(rt.alloc(), b"words 1; locks 0;", 0, 0, b""));
}

const ARRAYS: &[u8] =
    b"#: words 0 23 grid 3 4\n#: words 24 25 pair 1 2 1\n#: locks 1 4 fork 2\n#: locks 5 5 last\n";

#[test]
fn arrays_by_rows(rt: HostRuntime) {
    holds(&rt, shows(rt.alloc(), ARRAYS, 0, 0, b" (grid[0][0][0])"));
    holds(
        &rt,
        shows(rt.alloc(), ARRAYS, 11, 1, b" (grid[0][2][3]) (fork[0][0])"),
    );
    holds(
        &rt,
        shows(rt.alloc(), ARRAYS, 12, 4, b" (grid[1][0][0]) (fork[1][1])"),
    );
    holds(
        &rt,
        shows(rt.alloc(), ARRAYS, 25, 5, b" (pair[0][0][1][0]) (last[0])"),
    );
}

const ROWS: &[u8] =
    b"#: words 0 3 a 5\n#: words 0 3 b 0\n#: words 0 3 c 65537\n#: words 0 4 d 3\n#: locks 0 1 e 3\n#: locks 0 2 f\n#: locks 1 0 g\n#: words 0 3 h 65536 65536 65536 65536\n";

const ROWS_IDLE: &[Idle] = &[
    (1, 1, Reason::AnotherForm),
    (2, 1, Reason::AnotherForm),
    (3, 1, Reason::AnotherForm),
    (4, 1, Reason::NoSuchWord),
    (5, 1, Reason::AnotherForm),
    (6, 1, Reason::NoSuchLock),
    (7, 1, Reason::NoSuchLock),
    (8, 1, Reason::AnotherForm),
];

#[test]
fn rows_that_are_not_whole(rt: HostRuntime) {
    holds(&rt, are_labels(rt.alloc(), ROWS, 4, 2, 0, ROWS_IDLE));
}

// A word and a lock behind names, and their labels as members of an object.
fn numbered(alloc: Global, labels: &Labels<'_>) -> Result<Vec<u8>, AllocError> {
    let mut out = Vec::new(alloc);
    push_numbered_word(&mut out, &labels.said, b"word ", 2)?;
    push_word_member(&mut out, &labels.said, 2)?;
    push_numbered_lock(&mut out, &labels.said, b", lock ", 1)?;
    push_lock_member(&mut out, &labels.said, 1)?;
    push_numbered_word(&mut out, &labels.said, b", word ", 0)?;
    push_word_member(&mut out, &labels.said, 0)?;
    push_numbered_lock(&mut out, &labels.said, b", lock ", 0)?;
    push_lock_member(&mut out, &labels.said, 0)?;
    Ok(out)
}

fn shows_numbered(alloc: Global, text: &[u8], wanted: &[u8]) -> bool {
    match read_labels(alloc, text, 4, 2) {
        Ok(labels) => match numbered(alloc, &labels) {
            Ok(found) => found.as_slice() == wanted,
            Err(_) => false,
        },
        Err(_) => false,
    }
}

#[test]
fn behind_names_and_as_members(rt: HostRuntime) {
    holds(
        &rt,
        shows_numbered(
            rt.alloc(),
            b"#: words 1 3 list\n#: lock 1 mutex\n",
            b"word 2 (list[1]),\"label\":\"list[1]\", lock 1 (mutex),\"label\":\"mutex\", word 0, lock 0",
        ),
    );
}
