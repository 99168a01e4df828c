// Mailboxes, and the post over them.

ghost use Rattle.std.specs.Prelude.{◌≡◌};

use bytes::Bytes;
use lrc_envelope::Picker;
use lrc_post::{Mailbox, Parcel, Post, PostFault, Unput, Wire, Wires};
use std::alloc::{AllocError, Global};
use std::process::Abort;
use std::sync::Wait;
use std::test::Fail;
use std::thread;

/// Fails with the name of the case where the answer is no. It is no too where memory was refused.
fn holds(rt: &impl Abort, name: &str, answer: bool) {
    if !answer {
        rt.panic(name);
    }
}

/// What is done with a mailbox of node 1, or wanted of it.
#[derive(Clone, Copy)]
enum Step<'a> {
    /// Node 0 puts two parcels, with stamps 1 and 2, so many times, and they are taken.
    PutTwo(u64),
    /// It puts two, and both come back, since the mailbox is closed.
    GetsTwoBack,
    /// The next parcels have these stamps, 0 for none, so many times.
    Gives(u64, &'a [u64]),
    Close,
    IsEmpty(bool),
    /// So much has happened.
    Happened(usize),
}

/// Node 0 puts two parcels for node 1, with stamps 1 and 2. Where that is refused: why, and how many came back.
fn put_two(alloc: Global, mailbox: &mut Mailbox) -> Result<Option<(PostFault, usize)>, AllocError>
    requires { mailbox.old.owner ≡ 1 }
{
    let first = Parcel {
        to: 1,
        stamp: 1,
        bytes: Bytes::new(),
    };
    let second = Parcel {
        to: 1,
        stamp: 2,
        bytes: Bytes::new(),
    };
    let parcels = vec![in alloc; first, second]?;
    Ok(match mailbox.put_all(0, parcels) {
        Ok(()) => None,
        Err(unput) => Some((unput.fault, unput.parcels.len())),
    })
}

/// Puts two, and answers whether they were taken, or both came back since the mailbox is closed.
fn puts_two(alloc: Global, mailbox: &mut Mailbox, is_closed: bool) -> bool {
    if mailbox.owner() != 1 {
        return false;
    }
    match put_two(alloc, mailbox) {
        Ok(None) => !is_closed,
        Ok(Some((fault, back))) => is_closed && fault == PostFault::Closed && back == 2,
        Err(_) => false,
    }
}

fn puts_often(alloc: Global, mailbox: &mut Mailbox, times: u64) -> bool {
    for _ in 0..times {
        if !puts_two(alloc, mailbox, false) {
            return false;
        }
    }
    true
}

/// Whether the parcel that is given next has this stamp; or none is given, for 0.
fn gives_one(mailbox: &mut Mailbox, stamp: u64) -> bool {
    match mailbox.give() {
        Ok(Some(parcel)) => parcel.stamp == stamp,
        Ok(None) => stamp == 0,
        Err(_) => false,
    }
}

fn gives(mailbox: &mut Mailbox, stamps: &[u64]) -> bool {
    for stamp in stamps {
        if !gives_one(mailbox, *stamp) {
            return false;
        }
    }
    true
}

fn gives_often(mailbox: &mut Mailbox, times: u64, stamps: &[u64]) -> bool {
    for _ in 0..times {
        if !gives(mailbox, stamps) {
            return false;
        }
    }
    true
}

fn closes(mailbox: &mut Mailbox) -> bool {
    mailbox.close();
    true
}

/// Takes a step, and answers whether what was wanted came out.
fn is_met(alloc: Global, mailbox: &mut Mailbox, step: &Step) -> bool {
    match step {
        Step::PutTwo(times) => puts_often(alloc, mailbox, *times),
        Step::GetsTwoBack => puts_two(alloc, mailbox, true),
        Step::Gives(times, stamps) => gives_often(mailbox, *times, stamps),
        Step::Close => closes(mailbox),
        Step::IsEmpty(wanted) => mailbox.is_empty() == *wanted,
        Step::Happened(count) => mailbox.history().len() == *count,
    }
}

fn are_met(alloc: Global, mailbox: &mut Mailbox, steps: &[Step]) -> bool {
    for step in steps {
        if !is_met(alloc, mailbox, step) {
            return false;
        }
    }
    true
}

fn all_are_met(alloc: Global, mailbox: Mailbox, steps: &[Step]) -> bool {
    let mut mailbox = mailbox;
    are_met(alloc, &mut mailbox, steps)
}

/// Whether a mailbox of node 1 among two meets each of the steps.
fn meets(alloc: Global, picker: Picker, steps: &[Step]) -> bool {
    match Mailbox::new(alloc, 1, 2, picker) {
        Ok(mailbox) => all_are_met(alloc, mailbox, steps),
        Err(_) => false,
    }
}

const MAILBOXES: &[(&str, Picker, &[Step])] = &[
    (
        "gives the oldest",
        Picker::Oldest,
        &[Step::PutTwo(1), Step::Gives(1, &[1, 2, 0, 0, 0])],
    ),
    (
        "gives the newest",
        Picker::Newest,
        &[Step::PutTwo(1), Step::Gives(1, &[2, 1, 0, 0, 0])],
    ),
    (
        "gives each twice",
        Picker::Twice,
        &[Step::PutTwo(1), Step::Gives(1, &[1, 1, 2, 2, 0])],
    ),
    (
        "is empty only once each parcel was given two times",
        Picker::Twice,
        EMPTIED,
    ),
    (
        "refuses and gives nothing once closed",
        Picker::Oldest,
        CLOSED,
    ),
    ("gives a thousand parcels", Picker::Newest, THOUSAND),
];

const EMPTIED: &[Step] = &[
    Step::IsEmpty(true),
    Step::PutTwo(1),
    Step::IsEmpty(false),
    Step::Gives(1, &[1]),
    Step::IsEmpty(false),
    Step::Gives(1, &[1]),
    Step::IsEmpty(false),
    Step::Gives(1, &[2]),
    Step::IsEmpty(false),
    Step::Gives(1, &[2]),
    Step::IsEmpty(true),
];

const CLOSED: &[Step] = &[
    Step::PutTwo(1),
    Step::Close,
    Step::GetsTwoBack,
    Step::Gives(1, &[0]),
    Step::Happened(2),
];

const THOUSAND: &[Step] = &[
    Step::PutTwo(500),
    Step::Gives(500, &[2, 1]),
    Step::Gives(1, &[0]),
    Step::Happened(2000),
];

#[test]
fn mailboxes_are_as_worked(rt: HostRuntime) {
    for (name, picker, steps) in MAILBOXES {
        holds(&rt, name, meets(rt.alloc(), *picker, steps));
    }
}

/// What is done with a post, or wanted of it.
#[derive(Clone, Copy)]
enum Act<'a> {
    /// A node puts parcels for another, with these stamps, and they are taken.
    Puts(u8, u8, &'a [u64]),
    /// The same, and all of them come back, since the post is closed.
    GetsBack(u8, u8, &'a [u64]),
    /// A node polls parcels with these stamps, 0 for none.
    Polls(u8, &'a [u64]),
    /// A node takes nothing.
    TakesNone(u8),
    Close,
}

/// Parcels for a node, with these stamps.
fn parcels_of(alloc: Global, to: u8, stamps: &[u64]) -> Result<Vec<Parcel>, AllocError> {
    let mut parcels = Vec::new(alloc);
    for stamp in stamps {
        parcels.push(Parcel {
            to,
            stamp: *stamp,
            bytes: Bytes::new(),
        })?;
    }
    Ok(parcels)
}

/// Whether these are parcels for a node, with these stamps.
fn are_parcels(parcels: &[Parcel], to: u8, stamps: &[u64]) -> bool {
    for (parcel, stamp) in parcels.iter().zip(stamps) {
        if parcel.to != to || parcel.stamp != *stamp || !parcel.bytes.is_empty() {
            return false;
        }
    }
    parcels.len() == stamps.len()
}

fn come_back(unput: &Unput, to: u8, stamps: &[u64]) -> bool {
    unput.fault == PostFault::Closed && are_parcels(&unput.parcels, to, stamps)
}

/// A node puts parcels for another, with these stamps. Whether they are taken, or all come back since the post is closed.
fn puts<R: Wait>(
    rt: &R,
    alloc: Global,
    post: &Post,
    from: u8,
    to: u8,
    stamps: &[u64],
    is_closed: bool,
) -> bool {
    let Ok(parcels) = parcels_of(alloc, to, stamps) else {
        return false;
    };
    match post.put_all(rt, from, parcels) {
        Ok(()) => !is_closed,
        Err(unput) => is_closed && come_back(&unput, to, stamps),
    }
}

/// The stamp of the parcel that a node polls next, and 0 for none.
fn polled<R: Wait>(rt: &R, post: &Post, me: u8) -> Result<u64, PostFault> {
    Ok(match post.poll(rt, me)? {
        Some(parcel) => parcel.stamp,
        None => 0,
    })
}

fn polls<R: Wait>(rt: &R, post: &Post, me: u8, stamps: &[u64]) -> bool {
    for stamp in stamps {
        if polled(rt, post, me) != Ok(*stamp) {
            return false;
        }
    }
    true
}

fn is_closed<R: Wait>(rt: &R, post: &Post) -> bool {
    post.close(rt);
    true
}

/// Does an act, and answers whether what was wanted came out.
fn is_done<R: Wait>(rt: &R, alloc: Global, post: &Post, act: &Act) -> bool {
    match act {
        Act::Puts(from, to, stamps) => puts(rt, alloc, post, *from, *to, stamps, false),
        Act::GetsBack(from, to, stamps) => puts(rt, alloc, post, *from, *to, stamps, true),
        Act::Polls(me, stamps) => polls(rt, post, *me, stamps),
        Act::TakesNone(me) => matches!(post.take(rt, *me), Ok(None)),
        Act::Close => is_closed(rt, post),
    }
}

fn are_done<R: Wait>(rt: &R, alloc: Global, post: &Post, acts: &[Act]) -> bool {
    for act in acts {
        if !is_done(rt, alloc, post, act) {
            return false;
        }
    }
    true
}

/// Whether so much has happened in the mailboxes of the first nodes.
fn have_happened(wires: &Wires, counts: &[usize]) -> bool {
    for (mailbox, count) in wires.mailboxes().iter().zip(counts) {
        if mailbox.history().len() != *count {
            return false;
        }
    }
    wires.mailboxes().len() >= counts.len()
}

/// What is done with a post of so many nodes, and how much has happened then in the mailboxes of the first ones.
#[derive(Clone, Copy)]
struct Row<'a> {
    name: &'a str,
    nodes: u8,
    picker: Picker,
    acts: &'a [Act<'a>],
    happened: &'a [usize],
}

fn is_row_met<R: Wait>(rt: &R, alloc: Global, row: &Row) -> bool {
    match Post::new(alloc, row.nodes, row.picker) {
        Ok(post) => {
            are_done(rt, alloc, &post, row.acts) && have_happened(&post.into_wires(), row.happened)
        }
        Err(_) => false,
    }
}

// A parcel before the post is closed, polled two times, and one after.
const ONE_BEFORE_AND_ONE_AFTER: &[Act] = &[
    Act::Puts(0, 1, &[1]),
    Act::Polls(1, &[1, 0]),
    Act::Close,
    Act::GetsBack(0, 1, &[1]),
    Act::Polls(1, &[0]),
    Act::TakesNone(1),
];

const ROWS: &[Row] = &[
    Row {
        name: "gives the oldest",
        nodes: 2,
        picker: Picker::Oldest,
        acts: &[Act::Puts(0, 1, &[1, 2]), Act::Polls(1, &[1, 2, 0, 0, 0])],
        happened: &[0, 4],
    },
    Row {
        name: "gives the newest",
        nodes: 2,
        picker: Picker::Newest,
        acts: &[Act::Puts(0, 1, &[1, 2]), Act::Polls(1, &[2, 1, 0, 0, 0])],
        happened: &[0, 4],
    },
    Row {
        name: "gives each twice",
        nodes: 2,
        picker: Picker::Twice,
        acts: &[Act::Puts(0, 1, &[1, 2]), Act::Polls(1, &[1, 1, 2, 2, 0])],
        happened: &[0, 6],
    },
    Row {
        name: "refuses once closed",
        nodes: 2,
        picker: Picker::Oldest,
        acts: &[
            Act::Puts(0, 1, &[1, 2]),
            Act::Close,
            Act::GetsBack(0, 1, &[3, 4, 5]),
            Act::Polls(1, &[0]),
            Act::TakesNone(1),
        ],
        happened: &[0, 2],
    },
    Row {
        name: "a parcel is given once and comes back from a closed post, oldest first",
        nodes: 2,
        picker: Picker::Oldest,
        acts: ONE_BEFORE_AND_ONE_AFTER,
        happened: &[0, 2],
    },
    Row {
        name: "a parcel is given once and comes back from a closed post, newest first",
        nodes: 2,
        picker: Picker::Newest,
        acts: ONE_BEFORE_AND_ONE_AFTER,
        happened: &[0, 2],
    },
    // The only node puts parcels for itself; when it waits the post closes.
    Row {
        name: "closes when all wait and nothing is in flight, oldest first",
        nodes: 1,
        picker: Picker::Oldest,
        acts: &[
            Act::Puts(0, 0, &[1, 2]),
            Act::Polls(0, &[1, 2, 0, 0, 0, 0, 0, 0, 0, 0]),
            Act::Puts(0, 0, &[3]),
            Act::Polls(0, &[3, 0, 0, 0, 0, 0, 0, 0, 0, 0]),
            Act::TakesNone(0),
            Act::GetsBack(0, 0, &[4]),
        ],
        happened: &[6],
    },
    Row {
        name: "closes when all wait and nothing is in flight, newest first",
        nodes: 1,
        picker: Picker::Newest,
        acts: &[
            Act::Puts(0, 0, &[1, 2]),
            Act::Polls(0, &[2, 1, 0, 0, 0, 0, 0, 0, 0, 0]),
            Act::Puts(0, 0, &[3]),
            Act::Polls(0, &[3, 0, 0, 0, 0, 0, 0, 0, 0, 0]),
            Act::TakesNone(0),
            Act::GetsBack(0, 0, &[4]),
        ],
        happened: &[6],
    },
    Row {
        name: "closes when all wait and nothing is in flight, each twice",
        nodes: 1,
        picker: Picker::Twice,
        acts: &[
            Act::Puts(0, 0, &[1, 2]),
            Act::Polls(0, &[1, 1, 2, 2, 0, 0, 0, 0, 0, 0]),
            Act::Puts(0, 0, &[3]),
            Act::Polls(0, &[3, 3, 0, 0, 0, 0, 0, 0, 0, 0]),
            Act::TakesNone(0),
            Act::GetsBack(0, 0, &[4]),
        ],
        happened: &[9],
    },
];

#[test]
fn posts_are_as_worked(rt: HostRuntime) {
    for row in ROWS {
        holds(&rt, row.name, is_row_met(&rt, rt.alloc(), row));
    }
}

/// The stamps from 1 on, so many.
fn stamps_upto(alloc: Global, count: u64) -> Result<Vec<u64>, AllocError> {
    let mut stamps = Vec::new(alloc);
    for before in 0..count {
        stamps.push(before + 1)?;
    }
    Ok(stamps)
}

fn keeps<R: Wait>(rt: &R, alloc: Global, post: Post, stamps: &[u64]) -> bool {
    puts(rt, alloc, &post, 0, 1, stamps, false)
        && polls(rt, &post, 1, stamps)
        && have_happened(&post.into_wires(), &[0, 6_000])
}

/// Whether a post of sixteen nodes keeps three thousand parcels.
fn keeps_three_thousand<R: Wait>(rt: &R, alloc: Global) -> bool {
    let Ok(stamps) = stamps_upto(alloc, 3_000) else {
        return false;
    };
    match Post::new(alloc, 16, Picker::Oldest) {
        Ok(post) => keeps(rt, alloc, post, &stamps),
        Err(_) => false,
    }
}

#[test]
fn post_keeps_three_thousand_parcels(rt: HostRuntime) {
    holds(&rt, "of one node", keeps_three_thousand(&rt, rt.alloc()));
}

/// A node puts five hundred parcels for node 1, one in each call, each with its own number as the stamp, and then waits for a
/// parcel of its own, which never comes.
fn put_many<R: Wait>(rt: &R, alloc: Global, post: &Post, me: u8) -> bool {
    for _ in 0..500u64 {
        if !puts(rt, alloc, post, me, 1, &[u64::from(me)], false) {
            return false;
        }
    }
    matches!(post.take(rt, me), Ok(None))
}

/// Takes until the post is closed: how many parcels came.
fn take_many<R: Wait>(rt: &R, post: &Post) -> Option<u64> {
    let mut taken = 0u64;
    for _ in 0..2000u64 {
        match post.take(rt, 1) {
            Ok(Some(_)) if taken < 2000 => taken += 1,
            Ok(_) => return Some(taken),
            Err(_) => return None,
        }
    }
    Some(taken)
}

/// Whether each parcel of a history was put by the node that its stamp names.
fn are_put_by_their_stamps(history: &[Wire]) -> bool {
    for wire in history {
        if let Wire::Put { from, stamp, .. } = wire
            && u64::from(*from) != *stamp
        {
            return false;
        }
    }
    true
}

fn are_put_in_thousand(wires: &Wires) -> bool {
    match wires.mailboxes() {
        [_, mailbox, _] => {
            mailbox.history().len() == 2000 && are_put_by_their_stamps(mailbox.history())
        }
        _ => false,
    }
}

#[test]
fn two_threads_put_a_thousand_and_one_takes_them(rt: HostRuntime) -> Result<(), Fail> {
    let alloc: Global = rt.alloc();
    let post = Post::new(alloc, 3, Picker::Oldest)?;
    let shared = &post;
    let (puts, taken) = thread::join(
        &rt,
        || {
            thread::join(
                &rt,
                || put_many(&rt, alloc, shared, 0),
                || put_many(&rt, alloc, shared, 2),
            )
        },
        || take_many(&rt, shared),
    );
    holds(
        &rt,
        "puts and takes",
        puts.0 && puts.1 && taken == Some(1000),
    );
    holds(&rt, "history", are_put_in_thousand(&post.into_wires()));
    Ok(())
}

/// Twenty parcels for node 1, with stamps from 1 on.
fn twenty(alloc: Global) -> Result<Vec<Parcel>, AllocError> {
    let mut parcels = Vec::new(alloc);
    for before in 0..20u64 {
        parcels.push(Parcel {
            to: 1,
            stamp: before + 1,
            bytes: Bytes::new(),
        })?;
    }
    Ok(parcels)
}

/// The same, made a second time where memory was refused.
fn twenty_at_last(alloc: Global) -> Result<Vec<Parcel>, AllocError> {
    match twenty(alloc) {
        Err(AllocError) => twenty(alloc),
        parcels => parcels,
    }
}

/// A post of two nodes, made a second time where memory was refused.
fn post_at_last(alloc: Global) -> Result<Post, AllocError> {
    match Post::new(alloc, 2, Picker::Oldest) {
        Err(AllocError) => Post::new(alloc, 2, Picker::Oldest),
        post => post,
    }
}

/// Node 0 puts parcels: those that come back for want of memory.
fn put_what_fits<R: Wait>(rt: &R, alloc: Global, post: &Post, parcels: Vec<Parcel>) -> Vec<Parcel> {
    match post.put_all(rt, 0, parcels) {
        Err(
            Unput {
                fault: PostFault::NoMemory,
                parcels,
            },
        ) => parcels,
        _ => Vec::new(alloc),
    }
}

/// The stamp of the parcel that node 1 polls next, a second time where memory was refused, and 0 for none.
fn polled_at_last<R: Wait>(rt: &R, post: &Post) -> Result<u64, PostFault> {
    match polled(rt, post, 1) {
        Err(PostFault::NoMemory) => polled(rt, post, 1),
        stamp => stamp,
    }
}

/// Which stamp node 1 polls last, where stamps rise by one from the one after `last` on.
fn polled_from<R: Wait>(rt: &R, post: &Post, last: u64) -> Result<u64, PostFault> {
    let mut stamp = last;
    for _ in 0..21u32 {
        if polled_at_last(rt, post)? != stamp.saturating_add(1) {
            return Ok(stamp);
        }
        stamp = stamp.saturating_add(1);
    }
    Ok(stamp)
}

/// Whether these are those of the twenty parcels that come after this stamp, in order.
fn are_after(parcels: &[Parcel], last: u64) -> bool {
    let mut stamp = last;
    for parcel in parcels {
        stamp = stamp.saturating_add(1);
        if parcel.to != 1 || parcel.stamp != stamp {
            return false;
        }
    }
    stamp == 20
}

/// Whether what comes back and what is polled before are always the twenty parcels, in order; and whether all are polled once
/// those that came back were put again.
fn comes_back_or_is_polled<R: Wait>(rt: &R, alloc: Global, post: &Post) -> Result<bool, Fail> {
    let mut parcels = twenty_at_last(alloc)?;
    let mut last = 0;
    for _ in 0..3u32 {
        parcels = put_what_fits(rt, alloc, post, parcels);
        last = polled_from(rt, post, last)?;
        if !are_after(&parcels, last) {
            return Ok(false);
        }
    }
    Ok(parcels.is_empty())
}

// Whichever growth is refused, if one is.
#[test]
fn parcels_that_find_no_memory_come_back_and_the_post_goes_on(rt: HostRuntime) -> Result<(), Fail> {
    let post = post_at_last(rt.alloc())?;
    assert!(rt; comes_back_or_is_polled(&rt, rt.alloc(), &post)?);
    Ok(())
}
