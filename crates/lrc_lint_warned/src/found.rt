// What is warned of, and where.

ghost use Rattle.std.specs.Prelude.{◌≡◌, ◌++◌, OnOk};
ghost use Rattle.lrc_lint_warned.specs.Found.{found_at};

use lrc_program::{Expression, Statement};
use std::alloc::AllocError;

/// The kind of a warning. Words and locks are given by number, names by their number in the program.
#[derive(Clone, Copy)]
pub enum Kind {
    /// A name that some expression reads and no statement sets.
    NeverSet(u8),
    /// A name that some statement sets and no expression reads.
    NeverRead(u8),
    /// A shared access whose constant is not below the number of words.
    NoSuchWord(u64),
    /// An acquire or a release whose constant is not below the number of locks.
    NoSuchLock(u64),
    /// A division by the constant 0.
    DivisionByZero,
    /// A comparison that only tests whether a value is below 0. The flag says whether it always holds; if not, it never
    /// holds.
    BelowZero(bool),
    /// A word that is read but that no statement writes.
    NeverWritten(u32),
    /// An acquire of a lock that is held there.
    HeldAlready(u8),
    /// A release of a lock that is not held there.
    NotHeld(u8),
    /// A barrier at which a lock is held: the least such lock.
    HeldAtBarrier(u8),
    /// A lock that is acquired but that no statement releases.
    NeverReleased(u8),
    /// An `if` on `me` whose blocks do not have equally many barriers.
    UnevenBarriers,
    /// A `while` on `me` with a barrier in it.
    UncertainRounds,
    /// A `while` in which nothing changes its condition.
    UnchangedCondition,
    /// A `while` that waits for a shared word, without an acquire or a barrier in it.
    LearnsNothing,
}

/// A warning, and the token that it is about: its place among the tokens of the text, counted from 0.
#[derive(Clone, Copy)]
pub struct Found {
    pub at: usize,
    pub kind: Kind,
}

/// A statement of a program, and the place of its first token.
#[derive(Clone, Copy)]
pub struct StatementAt<'p> {
    pub at: u32,
    pub statement: &'p Statement,
}

/// A part of an expression, and the place of its token. For a part that joins two operands the token is the sign
/// between them.
#[derive(Clone, Copy)]
pub struct NodeAt<'p> {
    pub at: u32,
    pub node: &'p Expression,
}

/// Adds a warning at this place, if there is one.
pub fn push_found(out: &mut Vec<Found>, at: usize, kind: Option<Kind>) -> Result<(), AllocError>
    ensures { OnOk result (out.new.items ≡ out.old.items ++ found_at at kind) }
{
    if let Some(kind) = kind {
        out.push(Found { at, kind })?;
    }
    Ok(())
}
