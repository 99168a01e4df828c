// Which threads are joined, and which are known.
ghost use Rattle.std.specs.Prelude.{◌≡◌, ◌≢◌, ◌+◌, ℕ, List, [], MatchOption, OnOk};
ghost use Rattle.lrc_races_trace.specs.declared.event.Event.{Event};
ghost use Rattle.lrc_races_trace.specs.declared.fault.Reason.TheVariants.{Joined, Known};
ghost use Rattle.lrc_races_trace.specs.Trace.{At};
ghost use Rattle.lrc_races_trace.specs.Formed.{Holds};
ghost use Rattle.lrc_races_detector.specs.Threads.{line_of, first_line, IsLineSet, AreJoined, AreKnown, HasThreads, IsJoined, IsKnown};

use lrc_races_trace::event::{Event, Operation};
use lrc_races_trace::fault::Reason;
use std::alloc::{AllocError, Global};

/// A line for each thread that has one.
#[derive(Drop)]
pub struct Lines {
    lines: Vec<Option<u64>>,
}

// The first line stays.
fn first_line(first: Option<u64>, line: u64) -> Option<u64>
    ensures { result ≡ first_line first line }
{
    match first {
        Some(first) => Some(first),
        None => Some(line),
    }
}

impl Lines {
    fn new(alloc: Global) -> Lines
        ensures { result.lines.items ≡ [] }
    {
        Lines {
            lines: Vec::new(alloc),
        }
    }

    fn line(&self, thread: usize) -> Option<u64>
        ensures { result ≡ line_of self.now thread }
    {
        match self.lines.get(thread) {
            Some(line) => *line,
            None => None,
        }
    }

    fn set(&mut self, thread: usize, line: Option<u64>) -> Result<(), AllocError>
        ensures { OnOk result (IsLineSet self.old self.new thread line) }
    {
        while self.lines.len() <= thread {
            self.lines.push(None)?;
        }
        self.lines[thread] = line;
        Ok(())
    }

    // Keeps the line, where the thread has none.
    fn note(&mut self, thread: usize, line: u64) -> Result<(), AllocError>
        ensures { OnOk result (IsLineSet self.old self.new thread
            (first_line (line_of self.old thread) line)) }
    {
        let first = self.line(thread);
        self.set(thread, first_line(first, line))?;
        Ok(())
    }
}

/// Which threads were joined, and which are known.
#[derive(Drop)]
pub struct Threads {
    /// For each thread, the line of its first join.
    pub joined: Lines,
    /// For each thread, the line of the first event that is of it or forks it.
    pub known: Lines,
}

// A thread that is joined has a line.
fn note_joined(joined: &mut Lines, event: Event) -> Result<(), AllocError>
    ensures { OnOk result ((events : List Event) (n : ℕ) → At events n event
        → AreJoined events n joined.old
        → AreJoined events (n + 1) joined.new) }
{
    match event.operation {
        Operation::Join(thread) => {
            joined.note(thread as usize, event.line)?;
            Ok(())
        }
        _ => Ok(()),
    }
}

// So has a thread that is forked, and the thread of the event.
fn note_known(known: &mut Lines, event: Event) -> Result<(), AllocError>
    ensures { OnOk result ((events : List Event) (n : ℕ) → At events n event
        → AreKnown events n known.old
        → AreKnown events (n + 1) known.new) }
{
    known.note(event.thread as usize, event.line)?;
    match event.operation {
        Operation::Fork(thread) => {
            known.note(thread as usize, event.line)?;
            Ok(())
        }
        _ => Ok(()),
    }
}

impl Threads {
    /// Returns the threads before any event.
    pub fn new(alloc: Global) -> Threads
        ensures { (events : List Event) → HasThreads events 0 result }
    {
        Threads {
            joined: Lines::new(alloc),
            known: Lines::new(alloc),
        }
    }

    /// Returns a reason if the next event's thread was joined, with the line of its first join.
    pub fn joined_fault(&self, event: Event) -> Option<Reason>
        ensures { (events : List Event) (n : ℕ) → HasThreads events n self.now
            → MatchOption result ((line : ℕ) → ¬ Holds events n event (Joined line))
            (λ reason. IsJoined reason × Holds events n event reason) }
    {
        let line = self.joined.line(event.thread as usize)?;
        Some(Reason::Joined { line })
    }

    /// Returns a reason if the next event forks a thread that is known, with the line since which it is known.
    pub fn known_fault(&self, event: Event) -> Option<Reason>
        ensures { (events : List Event) (n : ℕ) → HasThreads events n self.now
            → MatchOption result ((thread line : ℕ) → ¬ Holds events n event (Known thread line))
            (λ reason. IsKnown reason × Holds events n event reason) }
    {
        match event.operation {
            Operation::Fork(thread) => {
                if let Some(line) = self.known.line(thread as usize) {
                    return Some(Reason::Known { thread, line });
                }
                if thread == event.thread {
                    return Some(Reason::Known {
                        thread,
                        line: event.line,
                    });
                }
                None
            }
            _ => None,
        }
    }

    /// Takes the next event of a trace. It fails if memory runs out, and then the threads are of no use.
    pub fn take(&mut self, event: Event) -> Result<(), AllocError>
        ensures { OnOk result ((events : List Event) (n : ℕ) → At events n event
            → HasThreads events n self.old
            → HasThreads events (n + 1) self.new) }
    {
        note_joined(&mut self.joined, event)?;
        note_known(&mut self.known, event)?;
        Ok(())
    }
}
