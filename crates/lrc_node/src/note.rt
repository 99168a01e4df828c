// How a node notes its accesses.

ghost use Rattle.std.specs.Prelude.{◌≡◌, IfErr, IfOk, OnErr, OnOk, Some, option_map};
ghost use Rattle.lrc_exec.specs.Ask.{ask_of};
ghost use Rattle.lrc_node_laws.specs.Traced.{CanNote, CanNoteAct, IsTraced};
ghost use Rattle.lrc_protocol.specs.Traced.{with_access_by, with_act};
ghost use Rattle.lrc_protocol.specs.Turn.{begins, done, not_ready, run_turn, take_turn, unexpected};
ghost use Rattle.lrc_node.specs.Effects.{turn_asked, CanBegin, CanNoteAsked, RefusesRun};
ghost use Rattle.lrc_node.specs.Taken.{RefusesTake};
ghost use Rattle.lrc_control.specs.Text.{asked_in};
ghost use Rattle.lrc_node.specs.declared.fault.NodeFault.TheVariants.{NotReady, Unexpected};

use crate::fault::NodeFault;
use crate::state::NodeState;
use lrc_envelope::Envelope;
use lrc_exec::machine::Ask;
use lrc_log::Turn;
use lrc_trace::act::{Act, Deed};
use lrc_trace::trace::Trace;
use std::alloc::AllocError;

impl NodeState<'_> {
    /// Goes on by one statement, or begins one that waits, as the wish says. If the node makes an access, the access is
    /// noted in the trace. It fails with `NotReady`, and changes nothing, if the node waits, has stopped, or has used
    /// up its steps; and with `Worn` if a number would be too large. On error the trace does not change.
    pub(crate) fn run_noting(
        &mut self,
        wish: Option<Ask>,
        trace: &mut Trace,
    ) -> Result<Turn, NodeFault>
        requires traced { IsTraced self.old trace.old }
        requires wish { wish ≡ option_map ask_of (begins self.old) }
        ensures done { IfOk result (λ turn. run_turn self.old ≡ done turn self.new) }
        ensures noted { IfOk result (λ turn. trace.new ≡ with_act self.new turn.act trace.old) }
        ensures kept { OnErr result (trace.new ≡ trace.old) }
        ensures ready { run_turn self.old ≡ not_ready
            → (result ≡ Err NotReady) × (self.new ≡ self.old) }
        ensures refused { IfErr result (λ fault. RefusesRun (run_turn self.old) fault) }
    {
        let Some(ask) = wish else {
            return Err(NodeFault::NotReady);
        };
        self.count(ask);
        self.run_begun_noting(ask, trace)
    }

    // Goes on by what it has begun, and notes the access that is made, if one is. After an error the trace is as it was.
    #[inline(never)]
    fn run_begun_noting(&mut self, ask: Ask, trace: &mut Trace) -> Result<Turn, NodeFault>
        requires next { asked_in self.old.course ≡ Some ask }
        requires can { CanBegin self.old ask }
        requires note { CanNoteAsked self.old trace.old ask }
        ensures done { IfOk result (λ turn. turn_asked self.old ask ≡ done turn self.new) }
        ensures noted { IfOk result (λ turn. trace.new ≡ with_act self.new turn.act trace.old) }
        ensures kept { OnErr result (trace.new ≡ trace.old) }
        ensures refused { IfErr result (RefusesRun (turn_asked self.old ask)) }
    {
        let turn = self.run_begun(ask)?;
        self.note(trace, turn.act)?;
        Ok(turn)
    }

    /// Takes a message as `take` does. If the node makes an access, the access is noted in the trace. On error the
    /// trace does not change.
    pub(crate) fn take_noting(
        &mut self,
        trace: &mut Trace,
        envelope: &Envelope,
    ) -> Result<Turn, NodeFault>
        requires { IsTraced self.old trace.old }
        ensures done { IfOk result (λ turn. take_turn self.old envelope.now ≡ done turn self.new) }
        ensures noted { IfOk result (λ turn. trace.new ≡ with_act self.new turn.act trace.old) }
        ensures kept { OnErr result (trace.new ≡ trace.old) }
        ensures refused { IfErr result (λ fault. RefusesTake
            (take_turn self.old envelope.now) self.old fault self.new) }
        ensures unexpected { take_turn self.old envelope.now ≡ unexpected
            → result ≡ Err Unexpected }
    {
        let turn = self.take(envelope)?;
        self.note(trace, turn.act)?;
        Ok(turn)
    }

    // Notes the access of an act, which the node has just made, if it is one. An error leaves the trace as it was.
    fn note(&self, trace: &mut Trace, act: Option<Act>) -> Result<(), AllocError>
        requires { CanNoteAct self.now trace.old act }
        ensures noted { OnOk result (trace.new ≡ with_act self.now act trace.old) }
        ensures kept { OnErr result (trace.new ≡ trace.old) }
    {
        let Some(act) = act else {
            return Ok(());
        };
        match act.deed {
            Deed::Read(word, _) => self.note_access(trace, word, false),
            Deed::Write(word, _) => self.note_access(trace, word, true),
            Deed::Quiet
            | Deed::Print(_)
            | Deed::Acquire(_)
            | Deed::Release(_)
            | Deed::Arrive
            | Deed::Depart
            | Deed::Trap(_)
            | Deed::End => Ok(()),
        }
    }

    // Notes an access that the node has just made, in the interval that is open. An error leaves the trace as it was.
    fn note_access(&self, trace: &mut Trace, word: u32, is_write: bool) -> Result<(), AllocError>
        requires { CanNote self.now trace.old word }
        ensures noted { OnOk result (trace.new ≡ with_access_by self.now word is_write trace.old) }
        ensures kept { OnErr result (trace.new ≡ trace.old) }
    {
        // For the proof: the steps are in range.
        let _steps = self.options.steps;
        let time = self.clock.next();
        trace.note(
            self.barrier.episode(),
            time.at(self.me),
            &time,
            word,
            is_write,
        )
    }
}
