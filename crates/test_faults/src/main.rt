//! Reads the damaged messages of the kit for builders of a node, which lie in files by the name of their fault. For each file a
//! line says how many of its messages are read, and that each has the fault of that name, or `none`.
#![tactic(auto)]

use lrc_envelope::Envelope;
use lrc_wire::{WireFault, decode};
use std::alloc::{AllocError, Global};
use std::fs::Files;
use std::process::ExitCode;
use std::rt::Env;
use std::{env, fs, io};

fn main(rt: HostRuntime) -> io::Result<ExitCode> {
    let mut failed = false;
    for name in env::args(&rt)?.skip(1) {
        let name = name.as_str();
        let (right, all) = counts_of(&rt, name)?;
        println!(rt; "{name}: {right} of {all}")?;
        failed = failed || right != all;
    }
    Ok(if failed {
        ExitCode::FAILURE
    } else {
        ExitCode::SUCCESS
    })
}

/// How many messages of a file have the fault that it is named after, and how many it has.
fn counts_of<R>(rt: &R, name: &str) -> io::Result<(usize, usize)>
where
    R: Files + AllocGlobal,
{
    let alloc = rt.alloc();
    let path = format!(in alloc; "{name}.txt")?;
    let text = fs::read_to_string(rt, path.as_str())?;
    let mut right = 0_usize;
    let mut all = 0_usize;
    for line in text.as_str().lines() {
        if let Some(digits) = digits_of(line) {
            all = all.saturating_add(1);
            if has_fault(alloc, digits, name)? {
                right = right.saturating_add(1);
            }
        }
    }
    Ok((right, all))
}

/// The digits of a line's message, if it has one: a line that begins with `#` says what the file is. What a message is stands
/// behind a `#` of its own, also where the message has no byte.
fn digits_of(line: &str) -> Option<&str> {
    if line.starts_with('#') {
        return None;
    }
    match line.split_whitespace().next() {
        Some("#") => Some(""),
        digits => digits,
    }
}

/// Whether a message that is written so has the fault of this name.
fn has_fault(alloc: Global, digits: &str, name: &str) -> Result<bool, AllocError> {
    match hex::decode(alloc, digits) {
        Ok(bytes) => Ok(name_of(decode(alloc, &bytes)) == name),
        Err(_) => Ok(false),
    }
}

fn name_of(read: Result<Envelope, WireFault>) -> &'static str {
    match read {
        Ok(_) => "none",
        Err(WireFault::Short) => "Short",
        Err(WireFault::Long) => "Long",
        Err(WireFault::BadVersion) => "BadVersion",
        Err(WireFault::BadKind) => "BadKind",
        Err(WireFault::BadNode) => "BadNode",
        Err(WireFault::BadCount) => "BadCount",
        Err(WireFault::NotAscending) => "NotAscending",
        Err(WireFault::NoMemory) => "NoMemory",
    }
}
