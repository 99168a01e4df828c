// What a thread asks for, and the machine that runs its code.

ghost use Rattle.std.specs.Prelude.{◌≡◌, ◌≤◌, false, length};
ghost use Rattle.lrc_exec.specs.Meaning.{next_of};
ghost use Rattle.lrc_exec.specs.Plain.{start_of};
ghost use Rattle.lrc_exec.specs.Spots.{thread_at, IsFlat};
ghost use Rattle.lrc_exec.specs.Ask.{ask_of, answered, TakesAnswer, steps_of as steps_taken};
ghost use Rattle.lrc_exec.specs.Condition.{condition_holds};

use crate::code::Code;
use crate::spot::{Flat, Spot, Wish};
use lrc_trace::act::{Cause, Deed};
use std::marker::Model;

/// What a thread asks for next.
#[derive(Clone, Copy, PartialEq, Eq)]
pub enum Ask {
    /// Nothing: the step is an assignment or a condition, which only this thread sees.
    Quiet,
    /// To print this value.
    Print(u64),
    /// To read this word of the shared memory.
    Read(u32),
    /// To write this value to a word of the shared memory.
    Write(u32, u64),
    /// To acquire a lock that it does not hold.
    Acquire(u8),
    /// To release a lock that it holds.
    Release(u8),
    /// To wait at the barrier until every node has arrived.
    Barrier,
    /// Nothing more: the thread has trapped.
    Trap(Cause),
    /// Nothing more: the thread is at the end of the text.
    End,
}

impl Ask {
    ghost use Rattle.lrc_exec.specs.Ask.{cost_asked, deed_asked};

    /// Returns the deed of a thread that asks for this. For a read, `value` is the value that it gives.
    pub fn deed(self, value: u64) -> Deed
        ensures { result ≡ deed_asked value self }
    {
        match self {
            Ask::Quiet => Deed::Quiet,
            Ask::Print(printed) => Deed::Print(printed),
            Ask::Read(word) => Deed::Read(word, value),
            Ask::Write(word, written) => Deed::Write(word, written),
            Ask::Acquire(lock) => Deed::Acquire(lock),
            Ask::Release(lock) => Deed::Release(lock),
            Ask::Barrier => Deed::Arrive,
            Ask::Trap(cause) => Deed::Trap(cause),
            Ask::End => Deed::End,
        }
    }

    /// Returns how many steps it costs to begin this: 0 at the end of the text, otherwise 1.
    pub fn cost(self) -> u32
        ensures { result ≡ cost_asked self }
    {
        steps_of(self.deed(0))
    }
}

// How many steps a deed takes.
pub(crate) fn steps_of(deed: Deed) -> u32
    ensures { result ≡ steps_taken deed }
{
    match deed {
        Deed::Depart | Deed::End => 0,
        _ => 1,
    }
}

/// A thread that runs the code of a program on one node. In a contract it is the thread of the meaning, not arrived at
/// a barrier: one answer to [`Ask::Barrier`] takes it through the arrive and the depart. Each expression is evaluated
/// once, when the thread reaches its statement.
#[derive(Drop)]
pub struct Machine<'c> {
    flat: Flat<'c>,
    spot: Spot,
    wish: Wish,
}

impl<'c> Model for Machine<'c> {
    ghost use Rattle.std.specs.Coded.{codes};
    ghost use Rattle.lrc_program.specs.contracts.Statement as statement;
    ghost use Rattle.lrc_exec.specs.Meaning.{Thread};
    ghost use Rattle.lrc_exec.specs.Running.{IsRunning};
    ghost use Rattle.lrc_exec.specs.Spots.{thread_at};

    ghost Value = { Thread };

    ghost coded = { Prim.hlevel (codes, statement.the_row.coded) };

    ghost view = { λ m. thread_at m.flat m.spot };

    ghost invariant = { IsRunning };
}

impl<'c> Machine<'c> {
    /// Returns the thread of node `me` of `nodes` at the beginning of a program.
    pub fn new(code: &'c Code<'_>, me: u8, nodes: u8) -> Machine<'c>
        ensures { result ≡ start_of code.now nodes me }
    {
        let (flat, place) = Flat::of(code, nodes);
        Machine::at(&flat, &Spot::begun(me, place))
    }

    /// Returns the thread of a node at a place of flat code, at no barrier.
    pub fn at(flat: &Flat<'c>, spot: &Spot) -> Machine<'c>
        requires flat { IsFlat flat.now }
        requires within { spot.now.place ≤ length flat.now.code.now }
        ensures { result ≡ thread_at flat.now spot.now }
    {
        let wish = flat.wish(spot);
        Machine {
            flat: *flat,
            spot: *spot,
            wish,
        }
    }

    /// Returns what the thread asks for next.
    pub fn ask(&self) -> Ask
        ensures asked { result ≡ ask_of (next_of self.now) }
        ensures not_arrived { self.now.arrived ≡ false }
    {
        self.wish.ask
    }

    /// Returns whether the condition that the thread evaluates next holds, or false if it evaluates none.
    pub fn condition_holds(&self) -> bool
        ensures { result ≡ condition_holds self.now }
    {
        self.flat.condition_holds(&self.spot)
    }

    /// Completes what the thread asked for. For [`Ask::Read`] the value is the one that was read; otherwise it is
    /// ignored.
    #[inline(always)]
    pub fn answer(&mut self, value: u64)
        requires { TakesAnswer (ask_of (next_of self.old)) }
        ensures answered { self.new ≡ answered value self.old }
        ensures not_arrived { self.new.arrived ≡ false }
    {
        self.flat.complete(&mut self.spot, self.wish.number, value);
        self.wish = self.flat.wish(&self.spot);
    }
}
