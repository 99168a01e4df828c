// A node's thread over a mail that is a plain value.

ghost use Rattle.std.specs.Prelude.{◌≡◌, ◌++◌, ◌∷◌, [], true, IfErr, IfNone, IfSome, OnOk};

use crate::checks::passes;
use crate::shell::options;
use bytes::Bytes;
use lrc_exec::code::Code;
use lrc_lang::parse;
use lrc_node::{Logged, Node};
use lrc_post::{Parcel, PostFault};
use lrc_program::Program;
use lrc_run::{Gate, Mail, Stop, work};
use std::alloc::{AllocError, Global};
use std::collections::VecDeque;
use std::sync::Wait;

/// A gate at which nobody waits.
struct OpenGate;

impl Gate for OpenGate {
    fn pass(&self, _node: usize, _turn: u32) {}
}

/// All that will come for a node, in order, and what the node put, which is refused where the post is closed.
#[derive(Drop)]
struct Letters {
    come: VecDeque<Parcel>,
    put: Vec<Parcel>,
    closed: bool,
}

impl Mail for Letters {
    ghost puts = { λ before parcels after. after.put.items ≡ before.put.items ++ parcels };

    ghost takes = { λ before parcel after. before.come.items ≡ parcel ∷ after.come.items };

    ghost over = { λ mail. mail.come.items ≡ [] };

    ghost shut = { λ mail. mail.closed ≡ true };

    fn put_all(&mut self, mut parcels: Vec<Parcel>) -> Result<(), PostFault> {
        if self.closed {
            return Err(PostFault::Closed);
        }
        self.put.append(&mut parcels)?;
        Ok(())
    }

    fn poll(&mut self) -> Result<Option<Parcel>, PostFault> {
        Ok(next(&mut self.come))
    }

    fn take(&mut self) -> Result<Option<Parcel>, PostFault> {
        Ok(next(&mut self.come))
    }
}

// The parcel that comes next.
fn next(come: &mut VecDeque<Parcel>) -> Option<Parcel>
    ensures some { IfSome result (λ parcel. come.old.items ≡ parcel ∷ come.new.items) }
    ensures none { IfNone result (come.new ≡ come.old) }
    ensures over { IfNone result (come.new.items ≡ []) }
{
    if come.is_empty() {
        return None;
    }
    come.pop_front()
}

// What comes of the thread of node 1 of two: where it ends well, all that would come was taken.
fn worked<R: Wait>(rt: &R, alloc: Global, mail: &mut Letters, text: &[u8]) -> Result<(), Stop>
    ensures over { OnOk result (mail.new.come.items ≡ []) }
    ensures shut { IfErr result (λ stop. stop ≡ Stop.Closed → mail.new.closed ≡ true) }
{
    match parse(alloc, text) {
        Ok(program) => worked_by(rt, alloc, mail, &program),
        Err(_) => Err(Stop::NoMemory),
    }
}

// The same of a program.
fn worked_by<R: Wait>(
    rt: &R,
    alloc: Global,
    mail: &mut Letters,
    program: &Program,
) -> Result<(), Stop>
    ensures over { OnOk result (mail.new.come.items ≡ []) }
    ensures shut { IfErr result (λ stop. stop ≡ Stop.Closed → mail.new.closed ≡ true) }
{
    let code = Code::new(alloc, program)?;
    worked_in(rt, alloc, mail, &code)
}

// The same of flat code.
fn worked_in<R: Wait>(rt: &R, alloc: Global, mail: &mut Letters, code: &Code) -> Result<(), Stop>
    ensures over { OnOk result (mail.new.come.items ≡ []) }
    ensures shut { IfErr result (λ stop. stop ≡ Stop.Closed → mail.new.closed ≡ true) }
{
    let node = Node::new(alloc, code, 1, 2, &options(0))?;
    let mut logged = Logged::new(alloc, node);
    work(rt, alloc, &OpenGate, mail, &mut logged, 1)
}

/// Node 1 asks node 0 for this lock, and waits for it.
const ASKS: &[u8] = b"words 1; locks 1; acquire 0; release 0;";

// One empty parcel that will come, over an open or a closed post.
fn one_parcel_comes(alloc: Global, closed: bool) -> Result<Letters, AllocError> {
    let mut come = VecDeque::new(alloc);
    come.push_back(Parcel {
        to: 1,
        stamp: 1,
        bytes: Bytes::new(),
    })?;
    Ok(Letters {
        come,
        put: Vec::new(alloc),
        closed,
    })
}

// Whether the thread ends well, all was taken and the request put; or the post is said to be closed, and nothing was put or taken.
fn is_worked<R: Wait>(rt: &R, alloc: Global, letters: &mut Letters) -> bool {
    let closed = letters.closed;
    match worked(rt, alloc, letters, ASKS) {
        Ok(()) => !closed && letters.put.len() == 1 && letters.come.is_empty(),
        Err(stop) => {
            closed && stop == Stop::Closed && letters.put.is_empty() && letters.come.len() == 1
        }
    }
}

fn is_met<R: Wait>(rt: &R, alloc: Global, closed: bool) -> bool {
    match one_parcel_comes(alloc, closed) {
        Ok(mut letters) => is_worked(rt, alloc, &mut letters),
        Err(_) => false,
    }
}

const ROWS: &[(&str, bool)] = &[("nothing more comes", false), ("the post is closed", true)];

fn first_wrong<R: Wait>(rt: &R, alloc: Global) -> Option<&'static str> {
    for (name, closed) in ROWS {
        if !is_met(rt, alloc, *closed) {
            return Some(name);
        }
    }
    None
}

#[test]
fn a_thread_ends_where_nothing_more_comes_or_the_post_is_closed(rt: HostRuntime) {
    passes(&rt, first_wrong(&rt, rt.alloc()));
}
