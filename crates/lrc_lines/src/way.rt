// What a thread has still to do, each statement with its lines.

ghost use Rattle.std.specs.Prelude.{◌≡◌, ◌∷◌, ◌+◌, ◌++◌, ◌≤◌, List, drop, fold, slice_index_or, IfOk, OnErr, OnOk};
ghost use Rattle.std.specs.Vec.{vec_capacity, vec_len};
ghost use Rattle.lrc_lines.specs.Tasks.{behind, tasks, passed, next_line};
ghost use Rattle.lrc_lines.specs.Ways.{todo_of};

use lrc_program::Statement;
use std::alloc::{AllocError, Global};

// What is left of a block: its next statement, those behind it, and the lines from that statement on.
#[derive(Clone, Copy)]
struct Stretch<'c> {
    first: &'c Statement,
    others: &'c [Statement],
    lines: &'c [u32],
}

// What is left of each block that a thread is in, the innermost last. A block of which nothing is left is not among them.
#[derive(Drop)]
pub(crate) struct Todo<'c> {
    stretches: Vec<Stretch<'c>>,
}

// All lines but the first.
fn tail(lines: &[u32]) -> &[u32]
    ensures { result.now ≡ drop 1 lines.now }
{
    match lines {
        [_, rest @ ..] => rest,
        [] => lines,
    }
}

// The lines behind those of a statement.
#[cycle(behind)]
fn behind<'l>(statement: &Statement, lines: &'l [u32]) -> &'l [u32]
    ensures { result.now ≡ behind statement.now lines.now }
{
    let inside = tail(lines);
    match statement {
        Statement::If(_, first, second) => behind_all(second, behind_all(first, inside)),
        Statement::While(_, body) => behind_all(body, inside),
        _ => inside,
    }
}

// The lines behind those of statements.
#[cycle(behind)]
fn behind_all<'l>(statements: &[Statement], lines: &'l [u32]) -> &'l [u32]
    ensures { result.now ≡ fold (λ left s. behind s left) lines.now statements.now }
{
    let mut left = lines;
    for statement in statements {
        left = behind(statement, left);
    }
    left
}

impl<'c> Todo<'c> {
    // The way of a thread that begins these statements.
    pub(crate) fn start(
        alloc: Global,
        statements: &'c [Statement],
        lines: &'c [u32],
    ) -> Result<Todo<'c>, AllocError>
        ensures { IfOk result (λ way. todo_of way.stretches.items
            ≡ tasks statements.now lines.now) }
    {
        let mut way = Todo {
            stretches: Vec::new(alloc),
        };
        way.open(statements, lines)?;
        Ok(way)
    }

    // The line of what comes next; `end` is the line of the text's end.
    pub(crate) fn line(&self, end: u32) -> u32
        ensures { result ≡ next_line end (todo_of self.now.stretches.items) }
    {
        match self.stretches.last() {
            Some(stretch) => first_of(stretch.lines, end),
            None => end,
        }
    }

    // These statements come first. Only where there is no room is memory asked for.
    fn open(&mut self, statements: &'c [Statement], lines: &'c [u32]) -> Result<(), AllocError>
        ensures ok { OnOk result (todo_of self.new.stretches.items
            ≡ tasks statements.now lines.now ++ todo_of self.old.stretches.items) }
        ensures full { OnErr result (vec_capacity self.old.stretches ≤ vec_len self.old.stretches) }
        ensures room { vec_capacity self.old.stretches ≤ vec_capacity self.new.stretches }
        ensures more { vec_len self.new.stretches ≤ vec_len self.old.stretches + 1 }
    {
        if let [first, others @ ..] = statements {
            self.stretches.push(Stretch {
                first,
                others,
                lines,
            })?;
        }
        Ok(())
    }

    // What comes next is done, or its condition was evaluated. Passing needs room for one stretch at most, which is got before
    // anything changes.
    #[tactic(auto, using(crate::proofs::Passing::passings))]
    pub(crate) fn pass(&mut self, holds: bool) -> Result<(), AllocError>
        ensures ok { OnOk result (todo_of self.new.stretches.items
            ≡ passed holds (todo_of self.old.stretches.items)) }
        ensures err { OnErr result (self.new.stretches.items ≡ self.old.stretches.items) }
    {
        self.stretches.reserve(1)?;
        let Some(stretch) = self.stretches.pop() else {
            return Ok(());
        };
        match stretch.first {
            Statement::If(_, first, second) => {
                self.leave(stretch)?;
                let inside = tail(stretch.lines);
                if holds {
                    self.open(first, inside)
                } else {
                    self.open(second, behind_all(first, inside))
                }
            }
            Statement::While(_, body) => {
                if !holds {
                    return self.leave(stretch);
                }
                self.stretches.push(stretch)?;
                self.open(body, tail(stretch.lines))
            }
            _ => self.leave(stretch),
        }
    }

    // What stands in a stretch behind its first statement comes first.
    fn leave(&mut self, stretch: Stretch<'c>) -> Result<(), AllocError>
        ensures ok { OnOk result (todo_of self.new.stretches.items
            ≡ tasks stretch.entry.others.now
            (behind stretch.entry.first.now stretch.entry.lines.now)
            ++ todo_of self.old.stretches.items) }
        ensures full { OnErr result (vec_capacity self.old.stretches ≤ vec_len self.old.stretches) }
        ensures room { vec_capacity self.old.stretches ≤ vec_capacity self.new.stretches }
        ensures more { vec_len self.new.stretches ≤ vec_len self.old.stretches + 1 }
    {
        self.open(stretch.others, behind(stretch.first, stretch.lines))
    }
}

// The first line, or else the other one.
fn first_of(lines: &[u32], other: u32) -> u32
    ensures { result ≡ slice_index_or lines.now 0 other }
{
    match lines {
        [line, ..] => *line,
        [] => other,
    }
}
