// Damaged messages: what is read of them is written as a message that is read as the same.

use crate::checks::holds;
use crate::random::Random;
use lrc_envelope::Envelope;
use lrc_wire::{WireFault, decode, encode};
use std::alloc::{AllocError, Global};

/// True messages of both versions: a request, a forward, a grant, an arrival, a request of changes, and changes.
pub const MESSAGES: [&[u8]; 8] = [
    &[
        1, 1, 1, 0, 0, 0, 0, 0, 0, 0, 0, 10, 0, 2, 0, 0, 0, 0, 0, 0, 0, 1,
    ],
    &[1, 2, 0, 1, 0, 0, 0, 5, 0, 0, 0, 7, 3, 15, 1, 0, 0, 0, 0],
    &[
        2, 3, 0, 1, 0, 0, 0, 0, 0, 0, 0, 40, 0, 2, 0, 0, 0, 2, 0, 0, 0, 0, 0, 0, 0, 2, 0, 2, 0, 0,
        0, 1, 0, 0, 0, 0, 0, 0, 0, 2, 0, 0, 0, 2, 0, 0, 0, 0, 0, 1, 0, 0,
    ],
    &[
        1, 4, 1, 0, 0, 0, 0, 0, 0, 0, 0, 34, 0, 0, 0, 1, 1, 2, 0, 0, 0, 0, 0, 0, 0, 1, 0, 0, 0, 1,
        1, 2, 0, 0, 0, 0, 0, 0, 0, 1, 0, 2, 0, 3, 0, 63,
    ],
    &[
        1, 8, 1, 0, 0, 0, 0, 3, 0, 0, 0, 14, 0, 5, 0, 0, 0, 2, 0, 0, 0, 1, 0, 0, 1, 0,
    ],
    &[
        1, 9, 0, 1, 0, 0, 0, 0, 0, 0, 0, 38, 0, 0, 0, 0, 0, 1, 0, 0, 0, 1, 3, 2, 0, 0, 0, 0, 0, 0,
        0, 3, 3, 0, 0, 0, 0, 0, 0, 0, 1, 63, 0, 0, 0, 0, 0, 0, 0, 1,
    ],
    &[
        2, 9, 0, 1, 0, 0, 0, 0, 0, 0, 0, 40, 0, 0, 0, 0, 0, 1, 0, 0, 0, 1, 0, 2, 2, 1, 0, 0, 0, 0,
        0, 0, 0, 3, 0, 0, 0, 0, 0, 0, 0, 1, 63, 0, 0, 0, 0, 0, 0, 0, 0, 1,
    ],
    &[1, 10, 0, 1, 0, 0, 0, 0, 0, 0, 0, 2, 0, 0],
];

/// Gives a byte another value.
fn change(bytes: &mut Vec<u8>, random: &mut Random) {
    let place = random.below(bytes.len());
    let byte = random.byte();
    if let Some(found) = bytes.get_mut(place) {
        *found = if byte < 128 { byte % 4 } else { byte };
    }
}

fn cut(bytes: &mut Vec<u8>, random: &mut Random) {
    let rest = random.below(bytes.len());
    bytes.truncate(rest);
}

/// Damages the bytes of a message: some get other values, or the end is cut, or a byte stands behind it.
fn damage(bytes: &mut Vec<u8>, random: &mut Random) -> Result<(), AllocError> {
    for _ in 0..1 + random.below(3) {
        change(bytes, random);
    }
    match random.below(8) {
        0 => cut(bytes, random),
        1 => bytes.push(random.byte())?,
        _ => {}
    }
    Ok(())
}

/// Puts the next damaged message where there is nothing yet.
pub fn put_damaged(bytes: &mut Vec<u8>, random: &mut Random) -> Result<(), AllocError> {
    bytes.extend_from_slice(random.one_of(&MESSAGES).unwrap_or(&[]))?;
    damage(bytes, random)
}

/// A random byte, which is small more often than not.
fn noise(random: &mut Random) -> u8 {
    let byte = random.byte();
    if byte < 192 { byte % 3 } else { byte }
}

/// Puts so many random bytes, behind a version and a kind that there are.
fn put_noise(bytes: &mut Vec<u8>, random: &mut Random) -> Result<(), AllocError> {
    let head = [1 + random.below(2) as u8, 1 + random.below(11) as u8];
    bytes.extend_from_slice(&head)?;
    for _ in 0..random.below(40) {
        bytes.push(noise(random))?;
    }
    Ok(())
}

/// Whether a message is written as these bytes.
fn is_written(alloc: Global, envelope: &Envelope, bytes: &[u8]) -> bool {
    match encode(alloc, envelope) {
        Ok(written) => written.as_slice() == bytes,
        Err(_) => false,
    }
}

/// Whether the first of these messages is written as these bytes.
fn are_written(alloc: Global, messages: &[Envelope], bytes: &[u8]) -> bool {
    match messages.first() {
        Some(message) => is_written(alloc, message, bytes),
        None => false,
    }
}

/// Adds the message that these bytes are.
pub fn push_read(
    alloc: Global,
    messages: &mut Vec<Envelope>,
    bytes: &[u8],
) -> Result<(), WireFault> {
    messages.push(decode(alloc, bytes)?)?;
    Ok(())
}

/// Whether these bytes are read as a message that is written as them.
fn is_read(alloc: Global, bytes: &[u8]) -> bool {
    let mut messages = Vec::new(alloc);
    push_read(alloc, &mut messages, bytes).is_ok() && are_written(alloc, &messages, bytes)
}

/// Whether a message is written as one that is read as the same.
fn is_rewritten(alloc: Global, envelope: &Envelope) -> bool {
    match encode(alloc, envelope) {
        Ok(bytes) => is_read(alloc, bytes.as_slice()),
        Err(_) => false,
    }
}

/// The same of the first of these.
fn are_rewritten(alloc: Global, messages: &[Envelope]) -> bool {
    match messages.first() {
        Some(message) => is_rewritten(alloc, message),
        None => false,
    }
}

/// Why these bytes are refused, or whether what is read of them is written as a message that is read as the same.
fn reading(alloc: Global, bytes: &[u8]) -> Result<bool, WireFault> {
    let mut messages = Vec::new(alloc);
    match push_read(alloc, &mut messages, bytes) {
        Ok(()) => Ok(are_rewritten(alloc, &messages)),
        Err(fault) => Err(fault),
    }
}

/// How many messages are read and refused.
#[derive(Clone, Copy)]
struct Tally {
    read: u32,
    refused: u32,
}

/// Counts these bytes, and answers whether they are not read as something else.
fn is_kept(alloc: Global, bytes: &[u8], tally: &mut Tally) -> bool {
    match reading(alloc, bytes) {
        Ok(is_rewritten) => {
            tally.read = tally.read.saturating_add(1);
            is_rewritten
        }
        Err(fault) => {
            tally.refused = tally.refused.saturating_add(1);
            fault != WireFault::NoMemory
        }
    }
}

/// The same of the next bytes, which are noise at each fourth turn.
fn is_next_kept(alloc: Global, random: &mut Random, turn: u32, tally: &mut Tally) -> bool {
    let mut bytes = Vec::new(alloc);
    let put = if turn % 4 == 0 {
        put_noise(&mut bytes, random)
    } else {
        put_damaged(&mut bytes, random)
    };
    put.is_ok() && is_kept(alloc, &bytes, tally)
}

/// Whether of so many messages none is read as something else, and many are read and refused.
fn are_kept(alloc: Global, seed: u64, count: u32) -> bool {
    let mut random = Random::new(seed);
    let mut tally = Tally {
        read: 0,
        refused: 0,
    };
    for turn in 0..count {
        if !is_next_kept(alloc, &mut random, turn, &mut tally) {
            return false;
        }
    }
    tally.read > 400 && tally.refused > 400
}

#[test]
fn damaged_messages_are_refused_or_read_as_they_are_written(rt: HostRuntime) {
    holds(&rt, are_kept(rt.alloc(), 1, 4000));
}
