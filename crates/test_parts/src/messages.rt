// Messages as bytes: the worked messages in both versions, each kind whole, cut and with a byte more, and first faults.

ghost use Rattle.std.specs.Prelude.{◌≡◌, ◌≤◌, IfOk, length};
ghost use Rattle.lrc_envelope.specs.Records.{GoWith};

use crate::checks::holds;
use lrc_envelope::{Arrive, ChangesRequest, Envelope, Indices, Message, News};
use lrc_page::Pages;
use lrc_store::{Interval, Intervals};
use lrc_time::Time;
use lrc_wire::{EncodeFault, WireFault, decode, encode, spell_over};
use std::alloc::{AllocError, Global};

// Node 1 asks node 0 for lock 0, at time 0,1.
const REQUEST: &[u8] = &[
    1, 1, 1, 0, 0, 0, 0, 0, 0, 0, 0, 10, 0, 2, 0, 0, 0, 0, 0, 0, 0, 1,
];

// Node 0 passes node 15's request for lock 3 on to node 1.
const FORWARD: &[u8] = &[1, 2, 0, 1, 0, 0, 0, 5, 0, 0, 0, 7, 3, 15, 1, 0, 0, 0, 0];

// Node 0 hands lock 0 to node 1, at time 2,0: its interval 1 wrote nothing, its interval 2 page 0.
const GRANT: &[u8] = &[
    2, 3, 0, 1, 0, 0, 0, 0, 0, 0, 0, 40, 0, 2, 0, 0, 0, 2, 0, 0, 0, 0, 0, 0, 0, 2, 0, 2, 0, 0, 0,
    1, 0, 0, 0, 0, 0, 0, 0, 2, 0, 0, 0, 2, 0, 0, 0, 0, 0, 1, 0, 0,
];

// Node 1 has arrived and asks for a collection, at time 0,1: its interval 1 wrote pages 3 and 63.
const ARRIVE: &[u8] = &[
    1, 4, 1, 0, 0, 0, 0, 0, 0, 0, 0, 34, 0, 0, 0, 1, 1, 2, 0, 0, 0, 0, 0, 0, 0, 1, 0, 0, 0, 1, 1,
    2, 0, 0, 0, 0, 0, 0, 0, 1, 0, 2, 0, 3, 0, 63,
];

// Node 1 asks node 0 for what its intervals 1 and 256 changed in page 5.
const CHANGES_REQUEST: &[u8] = &[
    1, 8, 1, 0, 0, 0, 0, 3, 0, 0, 0, 14, 0, 5, 0, 0, 0, 2, 0, 0, 0, 1, 0, 0, 1, 0,
];

// Node 0 tells node 1 that its interval 1 left page 0 as it was, in either version.
const NO_CHANGES_1: &[u8] = &[
    1, 9, 0, 1, 0, 0, 0, 1, 0, 0, 0, 11, 0, 0, 0, 0, 0, 1, 0, 0, 0, 1, 0,
];

const NO_CHANGES_2: &[u8] = &[
    2, 9, 0, 1, 0, 0, 0, 1, 0, 0, 0, 12, 0, 0, 0, 0, 0, 1, 0, 0, 0, 1, 0, 0,
];

// Node 0 tells node 1 that its interval 1 changed words 2, 3 and 63 of page 0 to 3, 1 and 1: one by one, and in two runs.
const CHANGES_1: &[u8] = &[
    1, 9, 0, 1, 0, 0, 0, 0, 0, 0, 0, 38, 0, 0, 0, 0, 0, 1, 0, 0, 0, 1, 3, 2, 0, 0, 0, 0, 0, 0, 0,
    3, 3, 0, 0, 0, 0, 0, 0, 0, 1, 63, 0, 0, 0, 0, 0, 0, 0, 1,
];

const CHANGES_2: &[u8] = &[
    2, 9, 0, 1, 0, 0, 0, 0, 0, 0, 0, 40, 0, 0, 0, 0, 0, 1, 0, 0, 0, 1, 0, 2, 2, 1, 0, 0, 0, 0, 0,
    0, 0, 3, 0, 0, 0, 0, 0, 0, 0, 1, 63, 0, 0, 0, 0, 0, 0, 0, 0, 1,
];

const DEPART: &[u8] = &[
    1, 5, 0, 0, 0, 0, 0, 1, 0, 0, 0, 14, 0, 0, 0, 1, 0, 1, 0, 0, 0, 7, 0, 0, 0, 0,
];

const CLEAN: &[u8] = &[1, 6, 3, 0, 0, 0, 0, 2, 0, 0, 0, 4, 0, 0, 0, 9];

const DISCARD: &[u8] = &[1, 7, 0, 3, 0, 0, 0, 2, 0, 0, 0, 4, 255, 255, 255, 255];

const PAGE_REQUEST: &[u8] = &[1, 10, 15, 15, 0, 0, 0, 0, 0, 0, 0, 2, 0, 63];

// Node 1 gets page 0 of node 0's, by number, and a page of 65 values.
const PAGE: &[u8] = &[1, 10, 0, 1, 0, 0, 0, 0, 0, 0, 0, 2, 0, 0];

const VALUES: &[u8] = &[2, 11, 0, 1, 0, 0, 0, 0, 0, 0, 0, 4, 0, 0, 0, 65];

// The grant whose last interval names pages 1 and then 0.
const FALLING: &[u8] = &[
    2, 3, 0, 1, 0, 0, 0, 0, 0, 0, 0, 42, 0, 2, 0, 0, 0, 2, 0, 0, 0, 0, 0, 0, 0, 2, 0, 2, 0, 0, 0,
    1, 0, 0, 0, 0, 0, 0, 0, 2, 0, 0, 0, 2, 0, 0, 0, 0, 0, 2, 0, 1, 0, 0,
];

// The last word of page 1023 alone, in version 2.
const LAST_ALONE: &[u8] = &[
    2, 9, 0, 1, 0, 0, 0, 0, 0, 0, 0, 22, 3, 255, 0, 0, 0, 1, 0, 0, 0, 1, 0, 1, 255, 0, 1, 2, 3, 4,
    5, 6, 7, 8,
];

/// Long bytes: a front, and groups behind it. A group has its number, from 1 on, in four bytes, some more bytes, and items;
/// without numbered groups there are items alone. An item has bytes, its number in one byte or four, bytes again, and
/// perhaps its number in a byte once more.
#[derive(Clone, Copy)]
pub struct Long<'a> {
    pub front: &'a [u8],
    pub groups: Option<(u32, &'a [u8])>,
    pub items: u32,
    pub first: u32,
    pub step: u32,
    pub is_wide: bool,
    pub before: &'a [u8],
    pub behind: &'a [u8],
    pub is_at_end: bool,
}

fn put_items(bytes: &mut Vec<u8>, long: &Long) -> Result<(), AllocError> {
    for item in 0..long.items {
        let number = item
            .wrapping_mul(long.step)
            .wrapping_add(long.first)
            .to_be_bytes();
        bytes.extend_from_slice(long.before)?;
        if long.is_wide {
            bytes.extend_from_slice(&number)?;
        } else {
            bytes.push(number[3])?;
        }
        bytes.extend_from_slice(long.behind)?;
        if long.is_at_end {
            bytes.push(number[3])?;
        }
    }
    Ok(())
}

fn put_groups(
    bytes: &mut Vec<u8>,
    long: &Long,
    count: u32,
    front: &[u8],
) -> Result<(), AllocError> {
    for group in 0..count {
        bytes.extend_from_slice(&group.wrapping_add(1).to_be_bytes())?;
        bytes.extend_from_slice(front)?;
        put_items(bytes, long)?;
    }
    Ok(())
}

fn put_long(bytes: &mut Vec<u8>, long: &Long) -> Result<(), AllocError> {
    bytes.extend_from_slice(long.front)?;
    match long.groups {
        Some((count, front)) => put_groups(bytes, long, count, front),
        None => put_items(bytes, long),
    }
}

/// Reads the bytes, a second time where memory was refused.
fn read(alloc: Global, bytes: &[u8]) -> Result<Envelope, WireFault> {
    match decode(alloc, bytes) {
        Err(WireFault::NoMemory) => decode(alloc, bytes),
        answer => answer,
    }
}

fn is_written(alloc: Global, envelope: &Envelope, wanted: &[u8]) -> bool {
    match encode(alloc, envelope) {
        Ok(bytes) => bytes.as_slice() == wanted,
        Err(_) => false,
    }
}

/// Whether reading the first bytes and writing them again gives the second.
pub fn gives(alloc: Global, bytes: &[u8], wanted: &[u8]) -> bool {
    match read(alloc, bytes) {
        Ok(envelope) => is_written(alloc, &envelope, wanted),
        Err(_) => false,
    }
}

/// Whether the bytes are read, and written as they were.
pub fn is_kept(alloc: Global, bytes: &[u8]) -> bool {
    gives(alloc, bytes, bytes)
}

/// The same of a long message.
fn is_long_kept(alloc: Global, long: &Long) -> bool {
    let mut bytes = Vec::new(alloc);
    put_long(&mut bytes, long).is_ok() && is_kept(alloc, &bytes)
}

/// Whether this long message is read and written as the other.
fn gives_long(alloc: Global, long: &Long, wanted: &Long) -> bool {
    let mut bytes = Vec::new(alloc);
    let mut others = Vec::new(alloc);
    put_long(&mut bytes, long).is_ok()
        && put_long(&mut others, wanted).is_ok()
        && gives(alloc, &bytes, &others)
}

fn is_written_over(envelope: &Envelope, others: Vec<u8>, wanted: &[u8]) -> bool {
    match spell_over(others, envelope) {
        Ok(bytes) => bytes.as_slice() == wanted,
        Err(_) => false,
    }
}

fn is_put_over_copy(alloc: Global, envelope: &Envelope, others: &[u8], wanted: &[u8]) -> bool {
    match others.to_vec(alloc) {
        Ok(others) => is_written_over(envelope, others, wanted),
        Err(_) => false,
    }
}

/// Whether the message of these bytes is written in place of others, and nothing of them is left.
fn is_put_over(alloc: Global, bytes: &[u8], others: &[u8]) -> bool {
    match read(alloc, bytes) {
        Ok(envelope) => is_put_over_copy(alloc, &envelope, others, bytes),
        Err(_) => false,
    }
}

fn has_fault(alloc: Global, bytes: &[u8], fault: Option<WireFault>) -> bool {
    read(alloc, bytes).err() == fault
}

/// Whether each part of the bytes is short.
fn is_short_in_parts(alloc: Global, bytes: &[u8]) -> bool {
    for len in 0..bytes.len() {
        if !has_fault(alloc, &bytes[..len], Some(WireFault::Short)) {
            return false;
        }
    }
    true
}

/// Places that get other values.
type Edits<'a> = &'a [(usize, u8)];

/// The bytes once these places have these values, with zeros behind them.
fn edited(alloc: Global, bytes: &[u8], edits: Edits, more: &[u8]) -> Result<Vec<u8>, AllocError> {
    let mut copy = bytes.to_vec(alloc)?;
    for (place, value) in edits {
        if *place < copy.len() {
            copy[*place] = *value;
        }
    }
    copy.extend_from_slice(more)?;
    Ok(copy)
}

fn is_faulty(
    alloc: Global,
    bytes: &[u8],
    edits: Edits,
    more: &[u8],
    fault: Option<WireFault>,
) -> bool {
    match edited(alloc, bytes, edits, more) {
        Ok(bytes) => has_fault(alloc, &bytes, fault),
        Err(_) => false,
    }
}

/// Whether nothing less or more than the bytes is read.
fn is_exact(alloc: Global, bytes: &[u8]) -> bool {
    is_short_in_parts(alloc, bytes) && is_faulty(alloc, bytes, &[], &[0], Some(WireFault::Long))
}

/// Whether a message that both versions spell is written in version 2, and nothing less or more is read.
fn are_both_kept(alloc: Global, one: &[u8], two: &[u8]) -> bool {
    gives(alloc, one, two) && is_kept(alloc, two) && is_exact(alloc, one) && is_exact(alloc, two)
}

/// The same of a message whose bytes differ in the version alone.
fn is_either_kept(alloc: Global, bytes: &[u8]) -> bool {
    match (
        edited(alloc, bytes, &[(0, 1)], &[]),
        edited(alloc, bytes, &[(0, 2)], &[]),
    ) {
        (Ok(one), Ok(two)) => are_both_kept(alloc, &one, &two),
        _ => false,
    }
}

/// The same of long messages.
fn are_long_both_kept(alloc: Global, one: &Long, two: &Long) -> bool {
    let mut first = Vec::new(alloc);
    let mut second = Vec::new(alloc);
    put_long(&mut first, one).is_ok()
        && put_long(&mut second, two).is_ok()
        && are_both_kept(alloc, &first, &second)
}

/// What is wanted of bytes.
#[derive(Clone, Copy)]
pub enum Case<'a> {
    /// A message whose bytes differ in the version alone is read, and written in version 2, and nothing less or more is read.
    Either(&'a [u8]),
    /// The same of a message that each version spells in its own way.
    Both(&'a [u8], &'a [u8]),
    /// The same of long ones.
    BothLong(Long<'a>, Long<'a>),
    /// A message in version 2 is read, and written as it was.
    Kept(&'a [u8]),
    /// The same of a long one.
    KeptLong(Long<'a>),
    /// The first long one is read, and written as the second.
    Gives(Long<'a>, Long<'a>),
    /// The message of the first bytes is written in place of the second, and nothing of them is left.
    Over(&'a [u8], &'a [u8]),
}

/// Whether what is wanted of bytes comes out.
pub fn is_met(alloc: Global, case: &Case) -> bool {
    match case {
        Case::Either(bytes) => is_either_kept(alloc, bytes),
        Case::Both(one, two) => are_both_kept(alloc, one, two),
        Case::BothLong(one, two) => are_long_both_kept(alloc, one, two),
        Case::Kept(bytes) => is_kept(alloc, bytes),
        Case::KeptLong(long) => is_long_kept(alloc, long),
        Case::Gives(long, wanted) => gives_long(alloc, long, wanted),
        Case::Over(bytes, others) => is_put_over(alloc, bytes, others),
    }
}

/// A page of 64 words in version 1: word n has the value n.
const WORDS_1: Long = Long {
    front: &[1, 11, 0, 1, 0, 0, 0, 0, 0, 0, 2, 2, 0, 63],
    groups: None,
    items: 64,
    first: 0,
    step: 1,
    is_wide: false,
    before: &[0; 7],
    behind: &[],
    is_at_end: false,
};

/// The same in version 2.
const WORDS_2: Long = Long {
    front: &[2, 11, 0, 1, 0, 0, 0, 0, 0, 0, 2, 4, 0, 63, 0, 64],
    ..WORDS_1
};

/// All words of page 1023 in one run, in version 2.
const ALL_IN_A_RUN: Long = Long {
    front: &[
        2, 9, 0, 1, 0, 0, 0, 0, 0, 0, 8, 14, 3, 255, 0, 0, 0, 1, 0, 0, 0, 1, 0, 1, 0, 255,
    ],
    items: 256,
    ..WORDS_1
};

/// Every second word of a page of 256 words, which are 128 runs of a word each, in version 2.
const EVERY_SECOND: Long = Long {
    front: &[
        2, 9, 0, 1, 0, 0, 0, 0, 0, 0, 5, 12, 3, 255, 0, 0, 0, 1, 0, 0, 0, 1, 0, 128,
    ],
    items: 128,
    step: 2,
    before: &[],
    behind: &[0, 1, 2, 3, 4, 5, 6, 7, 8],
    ..WORDS_1
};

/// Node 0 has arrived alone with intervals that wrote nothing: 5 bytes for episode and flag, 5 for the time, 4 for the
/// count, and 8 for each interval.
const LONGEST: Long = Long {
    front: &[
        2, 4, 0, 0, 0, 0, 0, 0, 0, 255, 255, 254, 0, 0, 0, 1, 0, 1, 0, 31, 255, 254, 0, 31, 255,
        254,
    ],
    items: 2_097_150,
    first: 1,
    is_wide: true,
    before: &[0, 1],
    behind: &[0, 0],
    ..WORDS_1
};

const KEPT: &[(&str, Case)] = &[
    ("a request", Case::Either(REQUEST)),
    ("a forward", Case::Either(FORWARD)),
    ("a grant", Case::Either(GRANT)),
    ("an arrival", Case::Either(ARRIVE)),
    ("a departure", Case::Either(DEPART)),
    ("a clean", Case::Either(CLEAN)),
    ("a discard", Case::Either(DISCARD)),
    ("a request for changes", Case::Either(CHANGES_REQUEST)),
    ("a request for a page", Case::Either(PAGE_REQUEST)),
    ("no changes", Case::Both(NO_CHANGES_1, NO_CHANGES_2)),
    ("changes", Case::Both(CHANGES_1, CHANGES_2)),
    ("over none", Case::Over(GRANT, &[])),
    ("over fewer bytes", Case::Over(GRANT, FORWARD)),
    ("over more bytes", Case::Over(NO_CHANGES_2, GRANT)),
    ("over about as many bytes", Case::Over(CHANGES_2, CHANGES_1)),
    ("a page", Case::BothLong(WORDS_1, WORDS_2)),
    ("all words in a run", Case::KeptLong(ALL_IN_A_RUN)),
    ("every second word", Case::KeptLong(EVERY_SECOND)),
    ("the last word alone", Case::Kept(LAST_ALONE)),
];

#[test]
fn messages_are_read_and_written(rt: HostRuntime) {
    for (name, case) in KEPT {
        holds(&rt, name, is_met(rt.alloc(), case));
    }
}

/// Edits of the places of a message, and the fault that it then has.
type Edited<'a> = (Edits<'a>, Option<WireFault>);

// runs that touch or lie over the one before, one past offset 255, counts of more runs than can be, a run that is cut
// off, and values behind
const OF_RUNS: &[Edited] = &[
    (&[(42, 4)], Some(WireFault::NotAscending)),
    (&[(42, 3)], Some(WireFault::NotAscending)),
    (&[(42, 255), (43, 1)], Some(WireFault::BadCount)),
    (&[(24, 255)], Some(WireFault::BadCount)),
    (&[(23, 129)], Some(WireFault::BadCount)),
    (&[(22, 255)], Some(WireFault::BadCount)),
    (&[(43, 1)], Some(WireFault::Short)),
    (&[(23, 1)], Some(WireFault::Long)),
];

const OF_NUMBERS: &[Edited] = &[
    (&[(13, 63)], None),
    (&[(13, 64)], Some(WireFault::BadCount)),
    (&[(0, 2), (13, 64)], None),
    (&[(0, 2), (12, 3), (13, 255)], None),
    (&[(0, 2), (12, 4)], Some(WireFault::BadCount)),
    (&[(0, 3)], Some(WireFault::BadVersion)),
    (&[(0, 0)], Some(WireFault::BadVersion)),
];

const OF_OFFSETS: &[Edited] = &[
    (&[(41, 64)], Some(WireFault::BadCount)),
    (&[(22, 65)], Some(WireFault::BadCount)),
];

const OF_VALUES: &[Edited] = &[
    (&[], Some(WireFault::BadCount)),
    (&[(14, 1), (15, 0)], Some(WireFault::Short)),
];

const OF_HEADERS: &[Edited] = &[
    (&[(1, 0)], Some(WireFault::BadKind)),
    (&[(1, 12)], Some(WireFault::BadKind)),
    (&[(2, 16)], Some(WireFault::BadNode)),
    (&[(3, 16)], Some(WireFault::BadNode)),
    (&[(8, 2)], Some(WireFault::BadCount)),
    (&[(11, 9)], Some(WireFault::Long)),
    (&[(11, 11)], Some(WireFault::Short)),
    (&[(0, 3), (1, 12)], Some(WireFault::BadVersion)),
    (&[(1, 12), (2, 16)], Some(WireFault::BadKind)),
    (&[(3, 16), (8, 2)], Some(WireFault::BadNode)),
    (&[(8, 1), (11, 0)], Some(WireFault::Short)),
    (&[(8, 1), (11, 1)], Some(WireFault::BadCount)),
];

const OF_FORWARDS: &[Edited] = &[
    (&[(12, 64)], Some(WireFault::BadCount)),
    (&[(13, 16)], Some(WireFault::BadNode)),
    (&[(14, 17)], Some(WireFault::BadCount)),
];

const OF_GRANTS: &[Edited] = &[
    (&[(25, 1)], Some(WireFault::Long)),
    (&[(25, 3)], Some(WireFault::Short)),
    (&[(26, 2)], Some(WireFault::BadNode)),
    (&[(27, 1)], Some(WireFault::BadCount)),
    (&[(31, 0)], Some(WireFault::BadCount)),
    (&[(31, 2)], Some(WireFault::NotAscending)),
    (&[(50, 4)], Some(WireFault::BadCount)),
    // an interval is compared with the one before it before its pages are read
    (&[(43, 1), (50, 4)], Some(WireFault::NotAscending)),
    // four billion intervals that are not there
    (&[(22, 255), (23, 255)], Some(WireFault::Short)),
];

const OF_ARRIVALS: &[Edited] = &[
    (&[(15, 0)], Some(WireFault::BadCount)),
    (&[(16, 2)], Some(WireFault::BadCount)),
    (&[(30, 0)], Some(WireFault::BadCount)),
    (&[(43, 64)], Some(WireFault::BadCount)),
    (&[(45, 3)], Some(WireFault::NotAscending)),
];

const OF_REQUESTS: &[Edited] = &[
    (&[(17, 0)], Some(WireFault::BadCount)),
    (&[(17, 1)], Some(WireFault::Long)),
    (&[(24, 0)], Some(WireFault::BadCount)),
    (&[(24, 0), (25, 1)], Some(WireFault::NotAscending)),
    (&[(14, 255)], Some(WireFault::Short)),
];

const OF_CHANGES: &[Edited] = &[(&[(32, 2)], Some(WireFault::NotAscending))];

const OF_FALLING: &[Edited] = &[(&[], Some(WireFault::NotAscending))];

const FAULTS: &[(&str, &[u8], &[Edited])] = &[
    ("runs", CHANGES_2, OF_RUNS),
    ("ranges of a page's number", PAGE, OF_NUMBERS),
    ("ranges of changes", CHANGES_1, OF_OFFSETS),
    ("ranges of a page's values", VALUES, OF_VALUES),
    ("header", REQUEST, OF_HEADERS),
    ("forward", FORWARD, OF_FORWARDS),
    ("grant", GRANT, OF_GRANTS),
    ("arrival", ARRIVE, OF_ARRIVALS),
    ("request for changes", CHANGES_REQUEST, OF_REQUESTS),
    ("changes", CHANGES_1, OF_CHANGES),
    ("pages that fall", FALLING, OF_FALLING),
];

fn has_faults(alloc: Global, bytes: &[u8], rows: &[Edited]) -> bool {
    for (edits, fault) in rows {
        if !is_faulty(alloc, bytes, edits, &[], *fault) {
            return false;
        }
    }
    true
}

#[test]
fn names_the_first_fault(rt: HostRuntime) {
    for (name, bytes, rows) in FAULTS {
        holds(&rt, name, has_faults(rt.alloc(), bytes, rows));
    }
}

/// Node 0's interval of this index, the only node's, which wrote nothing.
fn interval(alloc: Global, index: u32) -> Interval
    requires { 1 ≤ index }
    ensures { length result.stamp ≡ 1 }
{
    let mut stamp = Time::new(1);
    stamp.raise(0, index);
    Interval::new(0, stamp, Pages::empty(alloc))
}

/// Adds the interval where it comes after the last.
fn add(intervals: &mut Intervals, next: Interval) -> Result<bool, AllocError>
    requires together { GoWith 1 intervals.old }
    requires next { length next.stamp ≡ 1 }
    ensures { GoWith 1 intervals.new }
{
    let count = intervals.len();
    if count > 0 {
        let last = intervals.at(count - 1);
        if last.node != next.node || last.index() >= next.index() {
            return Ok(false);
        }
    }
    intervals.push(next)?;
    Ok(true)
}

/// So many intervals of node 0, the only node, none of which wrote.
fn intervals_without_pages(alloc: Global, count: u32) -> Result<Intervals, AllocError>
    ensures { IfOk result (GoWith 1) }
{
    let mut intervals = Intervals::empty(alloc);
    for before in 0..count {
        if !add(&mut intervals, interval(alloc, before + 1))? {
            return Ok(intervals);
        }
    }
    Ok(intervals)
}

/// Node 0's arrival, alone, with so many intervals that wrote nothing.
fn arrival_of(alloc: Global, count: u32) -> Result<Envelope, AllocError> {
    let intervals = intervals_without_pages(alloc, count)?;
    let mut time = Time::new(1);
    if count > 0 {
        time.raise(0, count);
    }
    let message = Message::Arrive(Arrive {
        episode: 1,
        ask: false,
        news: News { time, intervals },
    });
    Ok(Envelope {
        from: 0,
        to: 0,
        number: 0,
        message,
    })
}

/// Whether an envelope has so many bytes, or is too long.
fn is_of(alloc: Global, envelope: &Envelope, len: Option<usize>) -> bool {
    match encode(alloc, envelope) {
        Ok(bytes) => len == Some(bytes.len()),
        Err(fault) => len.is_none() && fault == EncodeFault::TooLong,
    }
}

/// One interval more than the longest has: a body of 16,777,222 bytes, which is too many.
fn is_arrival_too_long(alloc: Global) -> bool {
    match arrival_of(alloc, 2_097_151) {
        Ok(envelope) => is_of(alloc, &envelope, None),
        Err(_) => false,
    }
}

/// Adds the index where it is above the last.
fn add_index(indices: &mut Indices, index: u32) -> Result<bool, AllocError> {
    let count = indices.len();
    if index == 0 || count > 0 && indices.at(count - 1) >= index {
        return Ok(false);
    }
    indices.push(index)?;
    Ok(true)
}

/// Node 0 asks node 1 for what its intervals 1 to `count` changed in page 0.
fn request_of(alloc: Global, count: u32) -> Result<Option<Envelope>, AllocError> {
    let mut indices = Indices::empty(alloc);
    for before in 0..count {
        if !add_index(&mut indices, before + 1)? {
            return Ok(None);
        }
    }
    if indices.is_empty() {
        return Ok(None);
    }
    let message = Message::ChangesRequest(ChangesRequest { page: 0, indices });
    Ok(Some(Envelope {
        from: 0,
        to: 1,
        number: 0,
        message,
    }))
}

/// Whether the request of so many intervals has so many bytes, or is too long.
fn is_request_of(alloc: Global, count: u32, len: Option<usize>) -> bool {
    match request_of(alloc, count) {
        Ok(Some(envelope)) => is_of(alloc, &envelope, len),
        _ => false,
    }
}

#[test]
fn the_longest_body_is_read_and_written(rt: HostRuntime) {
    holds(&rt, "arrival", is_met(rt.alloc(), &Case::KeptLong(LONGEST)));
}

#[test]
fn an_arrival_over_the_limit_is_not_written(rt: HostRuntime) {
    holds(&rt, "arrival", is_arrival_too_long(rt.alloc()));
}

/// 2 bytes for the page, 4 for the count, and 4 for each index: 16,777,214 in all, and 4 more, which are too many.
#[test]
fn a_body_over_the_limit_is_not_written(rt: HostRuntime) {
    let alloc = rt.alloc();
    let longest = is_request_of(alloc, 4_194_302, Some(12 + 16_777_214));
    holds(&rt, "request", longest);
    holds(&rt, "long request", is_request_of(alloc, 4_194_303, None));
}
