// A node on its way through the text.

ghost use Rattle.std.specs.Prelude.{◌≡◌, ◌≤◌, IfOk, OnErr, OnOk};
ghost use Rattle.lrc_exec.specs.Ask.{ask_of};
ghost use Rattle.lrc_exec.specs.Meaning.{next_of};
ghost use Rattle.lrc_lines.specs.Seen.{walk_of};
ghost use Rattle.lrc_lines.specs.Walks.{walk_at_start, goes_on, onward, led, line_at};

use crate::way::Todo;
use lrc_exec::code::Code;
use lrc_exec::machine::{Ask, Machine};
use lrc_trace::act::Deed;
use std::alloc::{AllocError, Global};

/// Where a node is in the text.
#[derive(Drop)]
pub struct Walk<'c> {
    machine: Machine<'c>,
    way: Todo<'c>,
}

// Whether a thread goes on that asks for this.
fn goes_on(ask: Ask) -> bool
    ensures { result ≡ goes_on ask }
{
    !matches!(ask, Ask::Trap(_) | Ask::End)
}

impl<'c> Walk<'c> {
    /// Places node `me` of `nodes` at the beginning of a program whose statements have these lines. It fails if memory
    /// runs out.
    pub fn start(
        alloc: Global,
        code: &'c Code<'_>,
        lines: &'c [u32],
        nodes: u8,
        me: u8,
    ) -> Result<Walk<'c>, AllocError>
        ensures { IfOk result (λ walk. walk_of walk ≡ walk_at_start code.now nodes lines.now me) }
    {
        let way = Todo::start(alloc, &code.program().statements, lines)?;
        Ok(Walk {
            machine: Machine::new(code, me, nodes),
            way,
        })
    }

    /// Returns what the node's thread asks for next. If the node has arrived at a barrier, this is still the barrier.
    pub fn ask(&self) -> Ask
        ensures { result ≡ ask_of (next_of (walk_of self.now).thread) }
    {
        self.machine.ask()
    }

    /// Returns the line of what comes next; `end` is the line of the text's end.
    pub fn line(&self, end: u32) -> u32
        ensures { result ≡ line_at end (walk_of self.now) }
    {
        self.way.line(end)
    }

    /// Moves the node on by this deed. If memory runs out, it fails and the node stays where it was.
    #[tactic(auto, using(crate::proofs::Following::led_onward))]
    pub fn follow(&mut self, deed: Deed) -> Result<(), AllocError>
        ensures ok { OnOk result (walk_of self.new ≡ led (walk_of self.old) deed) }
        ensures err { OnErr result (walk_of self.new ≡ walk_of self.old) }
    {
        match deed {
            Deed::Arrive | Deed::Trap(_) | Deed::End => Ok(()),
            Deed::Read(_, value) => self.onward(value),
            _ => self.onward(0),
        }
    }

    // The statement that comes next is done, where a read gets the value. A thread that has stopped stays where it is.
    #[tactic(auto, using(crate::proofs::Following::onward_stopped, crate::proofs::Following::onward_going, crate::proofs::Following::goes_takes))]
    fn onward(&mut self, value: u64) -> Result<(), AllocError>
        ensures ok { OnOk result (walk_of self.new ≡ onward value (walk_of self.old)) }
        ensures err { OnErr result (walk_of self.new ≡ walk_of self.old) }
    {
        if !goes_on(self.machine.ask()) {
            return Ok(());
        }
        self.way.pass(self.machine.condition_holds())?;
        self.machine.answer(value);
        Ok(())
    }
}
