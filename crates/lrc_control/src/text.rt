// A node's text: how far it has come, and how many steps are left.

ghost use Rattle.std.specs.Prelude.{◌≡◌, ◌≤◌, IfSome, Some, false, is_some, option_map};
ghost use Rattle.lrc_exec.specs.Ask.{ask_of, cost_asked};
ghost use Rattle.lrc_exec.specs.Meaning.{next_of};
ghost use Rattle.lrc_exec.specs.Plain.{start_of};
ghost use Rattle.lrc_protocol.specs.Node.{going, course_of, deed_of};
ghost use Rattle.lrc_control.specs.Text.{asked_in, begun, begun_by, deed_in, end_of, gone_on, course_in};
ghost use Rattle.lrc_control.specs.Text.{allowed_with, standing_after};

use lrc_exec::code::Code;
use lrc_exec::machine::{Ask, Machine};
use lrc_trace::act::{Cause, Deed};
use lrc_trace::end::End;
use std::marker::Model;

/// The state of a node's text.
#[derive(Clone, Copy)]
pub(crate) enum TextStanding {
    /// The text goes on.
    Running,
    /// The text has arrived at a barrier, and has not departed from it.
    Arrived,
    /// The text has trapped.
    Trapped(Cause),
    /// The text has reached its end.
    Ended,
}

/// How far a node's text has come, and how many steps the node may still make. A step is a statement begun or a
/// condition evaluated. The end of the text counts as no step.
#[derive(Drop)]
pub struct Text<'c> {
    machine: Machine<'c>,
    standing: TextStanding,
    left: u32,
}

impl<'c> Model for Text<'c> {
    ghost use Rattle.std.specs.Prelude.{◌≡◌, false};
    ghost use Rattle.std.specs.Coded.{codes};
    ghost use Rattle.lrc_program.specs.contracts.Statement as statement;
    ghost use Rattle.lrc_control.specs.Text.{TextRecord, course_in};

    ghost Value = { TextRecord };

    ghost coded = { Prim.hlevel (codes, statement.the_row.coded) };

    ghost view = { λ t. record { course = course_in t.standing t.machine; left = t.left } };

    ghost invariant = { λ t. t.machine.arrived ≡ false };
}

impl<'c> Text<'c> {
    /// Creates the text of node `me` of `nodes` at the beginning of a program, with the given number of steps.
    pub fn new(code: &'c Code<'_>, me: u8, nodes: u8, steps: u32) -> Text<'c>
        ensures { result ≡ record { course = going (start_of code.now nodes me); left = steps } }
    {
        Text {
            machine: Machine::new(code, me, nodes),
            standing: TextStanding::Running,
            left: steps,
        }
    }

    /// Returns what the text asks for next, or none if it has stopped.
    pub fn asked(&self) -> Option<Ask>
        ensures { result ≡ asked_in self.now.course }
    {
        match self.standing {
            TextStanding::Running => Some(self.machine.ask()),
            TextStanding::Arrived => Some(Ask::Barrier),
            TextStanding::Trapped(_) | TextStanding::Ended => None,
        }
    }

    /// Returns what the text would begin, or none if it has stopped, is at a barrier, or has used up its steps.
    pub fn begins(&self) -> Option<Ask>
        ensures asked { result ≡ option_map ask_of (begun_by self.now) }
        ensures paid { IfSome result (λ ask. cost_asked ask ≤ self.now.left) }
    {
        match self.standing {
            TextStanding::Running => allowed(self.machine.ask(), self.left),
            TextStanding::Arrived | TextStanding::Trapped(_) | TextStanding::Ended => None,
        }
    }

    /// Returns whether the text would begin anything.
    pub fn is_ready(&self) -> bool
        ensures { result ≡ is_some (begun_by self.now) }
    {
        match self.standing {
            TextStanding::Running => self.left > 0 || self.begins().is_some(),
            TextStanding::Arrived | TextStanding::Trapped(_) | TextStanding::Ended => false,
        }
    }

    /// Begins what the text asks for next, and counts the step.
    #[inline(always)]
    pub fn begin(&mut self, ask: Ask)
        requires { option_map ask_of (begun_by self.old) ≡ Some ask }
        ensures { self.new ≡ begun self.old }
    {
        self.left -= ask.cost();
    }

    /// Makes the deed that comes next, which is what the text asks for. A read gets this value. It returns none if the
    /// text has stopped.
    pub fn go_on(&mut self, asked: Option<Ask>, value: u64) -> Option<Deed>
        requires { asked ≡ asked_in self.old.course }
        ensures deed { result ≡ deed_in value self.old.course }
        ensures text { self.new ≡ record self.old { course = gone_on value self.old.course } }
    {
        match self.standing {
            TextStanding::Running => {
                let (deed, standing) = step(&mut self.machine, asked?, value);
                self.standing = standing;
                Some(deed)
            }
            TextStanding::Arrived => {
                self.standing = TextStanding::Running;
                Some(Deed::Depart)
            }
            TextStanding::Trapped(_) | TextStanding::Ended => None,
        }
    }

    /// Makes a step that only its own thread sees: an assignment or a condition.
    #[inline(always)]
    pub fn go_on_quietly(&mut self)
        requires { asked_in self.old.course ≡ Some Ask.Quiet }
        ensures { self.new ≡ record self.old { course = gone_on 0 self.old.course } }
    {
        // The text runs, and goes on running.
        self.machine.answer(0);
    }

    /// Returns how the node ended.
    pub fn end(&self) -> End
        ensures { result ≡ end_of self.now.course }
    {
        match self.standing {
            TextStanding::Running | TextStanding::Arrived => End::Unfinished,
            TextStanding::Trapped(cause) => End::Trapped(cause),
            TextStanding::Ended => End::Ended,
        }
    }
}

// What is begun where this is asked for, with so many steps left.
fn allowed(ask: Ask, left: u32) -> Option<Ask>
    ensures asked { result ≡ allowed_with left ask }
    ensures paid { IfSome result (λ ask. cost_asked ask ≤ left) }
{
    if ask.cost() <= left { Some(ask) } else { None }
}

// Where a text stands once it has done what it asked for.
fn stand_after(ask: Ask) -> TextStanding
    ensures { result ≡ standing_after ask }
{
    match ask {
        Ask::Barrier => TextStanding::Arrived,
        Ask::Trap(cause) => TextStanding::Trapped(cause),
        Ask::End => TextStanding::Ended,
        _ => TextStanding::Running,
    }
}

// Makes a thread's next deed, a read with this value, and answers where the text stands then.
fn step(machine: &mut Machine<'_>, ask: Ask, value: u64) -> (Deed, TextStanding)
    requires ask { ask ≡ ask_of (next_of machine.old) }
    requires not_arrived { machine.old.arrived ≡ false }
    ensures deed { result.0 ≡ deed_of value (next_of machine.old) }
    ensures course { course_in result.1 machine.new ≡ course_of value (next_of machine.old) }
    ensures past { machine.new.arrived ≡ false }
{
    if !matches!(ask, Ask::Trap(_) | Ask::End) {
        machine.answer(value);
    }
    (ask.deed(value), stand_after(ask))
}
