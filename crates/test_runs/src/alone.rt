// The weave of one node's turns, with its own mailbox.

use crate::checks::passes;
use bytes::Bytes;
use lrc_envelope::{Clean, Envelope, Message, Picker};
use lrc_log::{Entry, Input, Turn};
use lrc_post::{Mailbox, Parcel};
use lrc_weave::{WeaveFault, weave, weave_run};
use lrc_wire::encode;
use std::alloc::{AllocError, Global};

// A message of node 0 to itself: its first or its second one.
fn message(number: u32) -> Envelope {
    Envelope {
        from: 0,
        to: 0,
        number,
        message: Message::Clean(Clean { episode: 1 }),
    }
}

// A turn of node 0 that takes this message, or goes on by itself.
fn input(alloc: Global, taken: Option<u32>) -> Result<Input, AllocError> {
    match taken {
        Some(number) => Ok(Input::Taken(Box::new(alloc, message(number))?)),
        None => Ok(Input::Run),
    }
}

// A turn with this input and stamp, which sends nothing.
fn turn(input: Input, stamp: u64, alloc: Global) -> Entry {
    Entry {
        input,
        stamp,
        turn: Turn {
            act: None,
            out: Vec::new(alloc),
        },
    }
}

// Adds the message that a turn sends, if it sends one.
fn put_sent(out: &mut Vec<Envelope>, sent: Option<u32>) -> Result<(), AllocError> {
    if let Some(number) = sent {
        out.push(message(number))?;
    }
    Ok(())
}

fn push_turn(
    alloc: Global,
    log: &mut Vec<Entry>,
    stamp: u64,
    taken: Option<u32>,
    sent: Option<u32>,
) -> Result<(), AllocError> {
    log.push(turn(input(alloc, taken)?, stamp, alloc))?;
    match log.last_mut() {
        Some(entry) => put_sent(&mut entry.turn.out, sent),
        None => Ok(()),
    }
}

// Node 0 sends itself a message, and then by the turn that takes it another one.
fn put_turns(alloc: Global, log: &mut Vec<Entry>) -> Result<(), AllocError> {
    push_turn(alloc, log, 1, None, Some(1))?;
    push_turn(alloc, log, 2, Some(1), Some(2))?;
    push_turn(alloc, log, 3, Some(2), None)
}

fn log(alloc: Global) -> Result<Vec<Entry>, AllocError> {
    let mut log = Vec::new(alloc);
    put_turns(alloc, &mut log)?;
    Ok(log)
}

// Puts the bytes of a message of node 0, which its turn with that stamp sent.
fn is_put(alloc: Global, mailbox: &mut Mailbox, stamp: u64, bytes: Bytes) -> bool {
    let parcel = Parcel {
        to: mailbox.owner(),
        stamp,
        bytes,
    };
    match vec![in alloc; parcel] {
        Ok(parcels) => mailbox.put_all(0, parcels).is_ok(),
        Err(_) => false,
    }
}

// Puts the first or the second message of node 0.
fn put(alloc: Global, mailbox: &mut Mailbox, number: u32) -> bool {
    match encode(alloc, &message(number)) {
        Ok(bytes) => is_put(alloc, mailbox, u64::from(number), bytes),
        Err(_) => false,
    }
}

// Takes the next message.
fn take(mailbox: &mut Mailbox) -> bool {
    mailbox.give().is_ok()
}

// Puts both messages of node 0 and takes them, the second one put before or after the first one is taken. Whether nothing is refused.
fn fill(alloc: Global, mailbox: &mut Mailbox, is_early: bool) -> bool {
    if is_early {
        put(alloc, mailbox, 1) && put(alloc, mailbox, 2) && take(mailbox) && take(mailbox)
    } else {
        put(alloc, mailbox, 1) && take(mailbox) && put(alloc, mailbox, 2) && take(mailbox)
    }
}

// The mailbox of node 0, filled so.
fn mailbox(alloc: Global, is_early: bool) -> Option<Mailbox> {
    let mut mailbox = Mailbox::new(alloc, 0, 1, Picker::Oldest).ok()?;
    if fill(alloc, &mut mailbox, is_early) {
        Some(mailbox)
    } else {
        None
    }
}

// Whether the log and that mailbox are woven; and whether they are so as a thread leaves them, or differ, as is wanted.
fn is_woven(alloc: Global, logs: &[Vec<Entry>], wires: &[Mailbox], wanted: bool) -> bool {
    if logs.len() != 1 || wires.len() != 1 {
        return false;
    }
    let is_woven = weave(alloc, logs, wires).is_ok();
    match weave_run(alloc, logs, wires) {
        Ok(_) => is_woven && wanted,
        Err(fault) => is_woven && !wanted && fault == WeaveFault::Mismatch,
    }
}

fn log_is_woven(alloc: Global, wires: &[Mailbox], wanted: bool) -> bool {
    match logs(alloc) {
        Ok(logs) => is_woven(alloc, &logs, wires, wanted),
        Err(_) => false,
    }
}

// The log of node 0 alone.
fn logs(alloc: Global) -> Result<Vec<Vec<Entry>>, AllocError> {
    Ok(vec![in alloc; log(alloc)?]?)
}

// The mailbox of node 0 alone.
fn wires(alloc: Global, is_early: bool) -> Option<Vec<Mailbox>> {
    let mailbox = mailbox(alloc, is_early)?;
    vec![in alloc; mailbox].ok()
}

fn is_met(alloc: Global, is_early: bool) -> bool {
    match wires(alloc, is_early) {
        Some(wires) => log_is_woven(alloc, &wires, !is_early),
        None => false,
    }
}

const ROWS: &[(&str, bool)] = &[
    ("the second message put after the first is taken", false),
    ("the second message put before the first is taken", true),
];

fn first_wrong(alloc: Global) -> Option<&'static str> {
    for (name, is_early) in ROWS {
        if !is_met(alloc, *is_early) {
            return Some(name);
        }
    }
    None
}

// Both messages may be put before either is taken, as each sender's puts and the takes are those of the log. But no thread does so
// that makes its turns one after another.
#[test]
fn a_node_sends_itself_a_message_after_the_take_that_makes_it(rt: HostRuntime) {
    passes(&rt, first_wrong(rt.alloc()));
}
