// The lines of the first accesses of variables.
ghost use Rattle.std.specs.Prelude.{◌≡◌, ◌+◌, ◌<◌, ℕ, List, Bool, IfOk, OnOk, Some, [], length, slice_get, true};
ghost use Rattle.lrc_races_trace.specs.declared.event.Event.{Event as AnyEvent};
ghost use Rattle.lrc_races_trace.specs.Trace.{At};
ghost use Rattle.lrc_races_claims.specs.Firsts.{line_of, first_line, AreFirsts, IsAny, IsFirstLine, IsLineSet, IsMarked};

use lrc_races_trace::event::{Event, Operation};
use std::alloc::{AllocError, Global};

/// A line for each variable that has one.
#[derive(Drop)]
pub struct FirstLines {
    lines: Vec<Option<u64>>,
}

/// For each variable, the lines of its first accesses.
#[derive(Drop)]
pub struct Firsts {
    /// That of its first access.
    pub any: FirstLines,
    /// That of its first access that is marked.
    pub marked: FirstLines,
}

// The first line stays.
fn first_line(first: Option<u64>, line: u64) -> Option<u64>
    ensures { result ≡ first_line first line }
{
    match first {
        Some(first) => Some(first),
        None => Some(line),
    }
}

impl FirstLines {
    fn new(alloc: Global) -> FirstLines
        ensures { result.lines.items ≡ [] }
    {
        FirstLines {
            lines: Vec::new(alloc),
        }
    }

    /// Returns the line of a variable, if it has one.
    pub fn line(&self, variable: usize) -> Option<u64>
        ensures { result ≡ line_of self.now variable }
    {
        match self.lines.get(variable) {
            Some(line) => *line,
            None => None,
        }
    }

    fn set(&mut self, variable: usize, line: Option<u64>) -> Result<(), AllocError>
        ensures { OnOk result (IsLineSet self.old self.new variable line) }
    {
        while self.lines.len() <= variable {
            self.lines.push(None)?;
        }
        self.lines[variable] = line;
        Ok(())
    }

    // Keeps the line, where the variable has none.
    fn note(&mut self, variable: usize, line: u64) -> Result<(), AllocError>
        ensures { OnOk result (IsLineSet self.old self.new variable
            (first_line (line_of self.old variable) line)) }
    {
        let first = self.line(variable);
        self.set(variable, first_line(first, line))?;
        Ok(())
    }
}

// Notes an event in the lines of all accesses.
fn note_any(lines: &mut FirstLines, event: Event) -> Result<(), AllocError>
    ensures { OnOk result ((events : List AnyEvent) (marks : List Bool) (n : ℕ) → At events n event
        → ((v : ℕ) → IsFirstLine n (IsAny events marks v) (line_of lines.old v))
        → (v : ℕ) → IsFirstLine (n + 1) (IsAny events marks v) (line_of lines.new v)) }
{
    match event.operation {
        Operation::Read(variable) | Operation::Write(variable) => {
            lines.note(variable as usize, event.line)?;
            Ok(())
        }
        _ => Ok(()),
    }
}

// Notes an event in the lines of those that are marked.
fn note_marked(lines: &mut FirstLines, event: Event, mark: bool) -> Result<(), AllocError>
    ensures { OnOk result ((events : List AnyEvent) (marks : List Bool) (n : ℕ) → At events n event
        → slice_get marks n ≡ Some mark
        → ((v : ℕ) → IsFirstLine n (IsMarked events marks v) (line_of lines.old v))
        → (v : ℕ) → IsFirstLine (n + 1) (IsMarked events marks v) (line_of lines.new v)) }
{
    if !mark {
        return Ok(());
    }
    match event.operation {
        Operation::Read(variable) | Operation::Write(variable) => {
            lines.note(variable as usize, event.line)?;
            Ok(())
        }
        _ => Ok(()),
    }
}

/// Returns the lines of the first accesses of each variable of a trace: of all accesses, and of those that are marked.
/// There is a mark for each event. It fails if memory runs out.
pub fn firsts_of(alloc: Global, events: &[Event], marks: &[bool]) -> Result<Firsts, AllocError>
    requires { length marks.now ≡ length events.now }
    ensures { IfOk result (AreFirsts events.now marks.now (length events.now)) }
{
    let mut firsts = Firsts {
        any: FirstLines::new(alloc),
        marked: FirstLines::new(alloc),
    };
    for (position, event) in events.iter().enumerate() {
        note_any(&mut firsts.any, *event)?;
        note_marked(&mut firsts.marked, *event, marks[position])?;
    }
    Ok(firsts)
}
