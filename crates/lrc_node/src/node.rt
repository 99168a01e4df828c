//! One node of a run.

ghost use Rattle.std.specs.Prelude.{◌≡◌, ◌<◌, ◌≤◌, IfErr, IfOk, MatchOption, OnErr, None, Some, [], unwrap_or, option_map, false, is_none};
ghost use Rattle.lrc_protocol.specs.Node.{Node as NodeRecord, fresh_node};
ghost use Rattle.lrc_protocol.specs.Traced.{with_act};
ghost use Rattle.lrc_protocol.specs.Turn.{done, is_ready, not_ready, run_turn, take_turn, unexpected};
ghost use Rattle.lrc_protocol.specs.Run.{run, taken};
ghost use Rattle.lrc_node.specs.Fault.{MayAnswer};
ghost use Rattle.lrc_node.specs.Node.{AnswersTurn, is_turn, sound_node, wish_of};
ghost use Rattle.lrc_node.specs.declared.fault.NodeFault.TheVariants.{Failed, NoMemory, NotReady, Unexpected};
ghost use Rattle.lrc_control.specs.Text.{end_of};
ghost use Rattle.lrc_trace.specs.declared.end.End.TheVariants.{Unfinished};

use crate::fault::NodeFault;
use crate::options::Options;
use crate::state::NodeState;
use lrc_envelope::Envelope;
use lrc_exec::code::Code;
use lrc_exec::machine::Ask;
use lrc_log::Turn;
use lrc_trace::end::End;
use lrc_trace::trace::Trace;
use std::alloc::{AllocError, Global};
use std::marker::Model;

/// A node, which runs a program, takes messages, and keeps a trace of its accesses. In a contract it is the node of the
/// protocol machine, or none once it has failed. A node fails if a number would be too large, or if memory runs out.
/// How it had ended by then does not change.
#[derive(Drop)]
pub struct Node<'c> {
    state: NodeState<'c>,
    trace: Trace,
    // How the node had ended when it failed, none while it has not failed.
    failed: Option<End>,
}

impl<'c> Model for Node<'c> {
    ghost use Rattle.std.specs.Prelude.{◌≡◌, None};
    ghost use Rattle.std.specs.Coded.{codes};
    ghost use Rattle.lrc_program.specs.contracts.Statement as statement;
    ghost use Rattle.lrc_node_laws.specs.Traced.{IsTraced};
    ghost use Rattle.lrc_node.specs.Node.{TracedNode, seen_end, seen_node};

    ghost Value = { TracedNode };

    ghost coded = { Prim.hlevel (codes, statement.the_row.coded) };

    ghost view = { λ n. record { node = seen_node n.failed n.state; trace = n.trace; end = seen_end n.failed n.state } };

    ghost invariant = { λ n. n.failed ≡ None → IsTraced n.state n.trace };
}

impl<'c> Node<'c> {
    /// Creates node `me` of `nodes`, at most 16, at the beginning of a program.
    pub fn new(
        alloc: Global,
        code: &'c Code<'_>,
        me: u8,
        nodes: u8,
        options: &Options,
    ) -> Result<Node<'c>, AllocError>
        requires here { me < nodes }
        requires few { nodes ≤ 16 }
        ensures { IfOk result (λ node. node ≡ record {
          node = Some (fresh_node code.now nodes options.now me);
          trace = record { node = me; size = options.now.size; segments = [] };
          end = Unfinished;
        }) }
    {
        Ok(Node {
            state: NodeState::new(alloc, code, me, nodes, options)?,
            trace: Trace::new(alloc, me, options.size),
            failed: None,
        })
    }

    /// Goes on by one statement, or begins one that waits. If the node makes an access, the access is noted in the
    /// trace.
    ///
    /// It is refused, in this order, with: `Failed`; `NotReady`, which changes nothing, if the node waits, has stopped,
    /// or has used up its steps; `Worn` if a number would be too large; `NoMemory`. After the last two the node has
    /// failed.
    pub fn run(&mut self) -> Result<Turn, NodeFault>
        ensures failed { self.old.node ≡ None → (result ≡ Err Failed) × (self.new ≡ self.old) }
        ensures done { (node : NodeRecord) → self.old.node ≡ Some node
            → IfOk result (λ turn. (after : NodeRecord) × (run_turn node ≡ done turn after)
            × (self.new ≡ sound_node after (with_act after turn.act self.old.trace))) }
        ensures refused { (node : NodeRecord) → self.old.node ≡ Some node
            → IfErr result (λ fault. AnswersTurn (run_turn node) node fault self.new.node) }
        ensures ready { (node : NodeRecord) → self.old.node ≡ Some node → run_turn node ≡ not_ready
            → result ≡ Err NotReady }
        ensures kept { OnErr result (self.new.trace ≡ self.old.trace) }
        ensures ended { OnErr result (self.new.end ≡ self.old.end) }
        ensures fault { IfErr result (MayAnswer run) }
    {
        let wish = self.wish();
        self.run_wish(wish)
    }

    /// Returns what the node would begin by itself, or none if it has failed or is not ready.
    #[inline(always)]
    pub(crate) fn wish(&self) -> Option<Ask>
        ensures { result ≡ wish_of self.now.node }
    {
        if self.failed.is_some() {
            None
        } else {
            self.state.wish()
        }
    }

    /// Goes on as `run` does, given the answer of `wish`.
    pub(crate) fn run_wish(&mut self, wish: Option<Ask>) -> Result<Turn, NodeFault>
        requires { wish ≡ wish_of self.old.node }
        ensures failed { self.old.node ≡ None → (result ≡ Err Failed) × (self.new ≡ self.old) }
        ensures done { (node : NodeRecord) → self.old.node ≡ Some node
            → IfOk result (λ turn. (after : NodeRecord) × (run_turn node ≡ done turn after)
            × (self.new ≡ sound_node after (with_act after turn.act self.old.trace))) }
        ensures refused { (node : NodeRecord) → self.old.node ≡ Some node
            → IfErr result (λ fault. AnswersTurn (run_turn node) node fault self.new.node) }
        ensures ready { (node : NodeRecord) → self.old.node ≡ Some node → run_turn node ≡ not_ready
            → result ≡ Err NotReady }
        ensures kept { OnErr result (self.new.trace ≡ self.old.trace) }
        ensures ended { OnErr result (self.new.end ≡ self.old.end) }
        ensures fault { IfErr result (MayAnswer run) }
    {
        if self.failed.is_some() {
            return Err(NodeFault::Failed);
        }
        match self.state.run_noting(wish, &mut self.trace) {
            Ok(turn) => Ok(turn),
            Err(fault) => {
                // One that had ended is not ready, so it does not fail here.
                self.failed = fault.is_final().then_some(End::Unfinished);
                Err(fault)
            }
        }
    }

    /// Makes a step that only its own thread sees. Such a turn makes no access, sends nothing and cannot fail.
    #[inline(always)]
    pub(crate) fn run_quietly(&mut self) -> Turn
        requires { wish_of self.old.node ≡ Some Ask.Quiet }
        ensures { (node : NodeRecord) → self.old.node ≡ Some node
            → (after : NodeRecord) × (run_turn node ≡ done result after)
            × (self.new ≡ sound_node after (with_act after result.act self.old.trace)) }
    {
        self.state.run_quietly()
    }

    /// Takes a message. A repeat of a message that was taken is an empty turn. If the node makes an access, the access
    /// is noted in the trace.
    ///
    /// It is refused, in this order, with: `Failed`; `Unexpected`, which changes nothing, if the node does not expect
    /// the message; `Worn` if a number would be too large; `NoMemory`. After the last two the node has failed.
    pub fn take(&mut self, envelope: &Envelope) -> Result<Turn, NodeFault>
        ensures failed { self.old.node ≡ None → (result ≡ Err Failed) × (self.new ≡ self.old) }
        ensures done { (node : NodeRecord) → self.old.node ≡ Some node
            → IfOk result (λ turn. (after : NodeRecord)
            × (take_turn node envelope.now ≡ done turn after)
            × (self.new ≡ sound_node after (with_act after turn.act self.old.trace))) }
        ensures refused { (node : NodeRecord) → self.old.node ≡ Some node
            → IfErr result (λ fault. AnswersTurn
            (take_turn node envelope.now) node fault self.new.node) }
        ensures unexpected { (node : NodeRecord) → self.old.node ≡ Some node
            → take_turn node envelope.now ≡ unexpected → result ≡ Err Unexpected }
        ensures kept { OnErr result (self.new.trace ≡ self.old.trace) }
        ensures ended { OnErr result (self.new.end ≡ self.old.end) }
        ensures fault { IfErr result (MayAnswer (taken envelope.now)) }
    {
        if self.failed.is_some() {
            return Err(NodeFault::Failed);
        }
        let end = self.state.end();
        match self.state.take_noting(&mut self.trace, envelope) {
            Ok(turn) => Ok(turn),
            Err(fault) => {
                self.failed = fault.is_final().then_some(end);
                Err(fault)
            }
        }
    }

    /// Returns whether the node would take a message, if numbers that are too large are left aside. For a failed node
    /// the answer means nothing.
    pub(crate) fn awaits(&self, envelope: &Envelope) -> bool
        ensures { (node : NodeRecord) → self.now.node ≡ Some node
            → result ≡ is_turn (take_turn node envelope.now) }
    {
        self.failed.is_none() && self.state.awaits(envelope)
    }

    /// Returns whether the node has failed.
    pub(crate) fn has_failed(&self) -> bool
        ensures { result ≡ is_none self.now.node }
    {
        self.failed.is_some()
    }

    /// Makes the node fail: every later turn is refused. How it had ended does not change.
    pub(crate) fn fail(&mut self)
        ensures { self.new ≡ record { node = None; trace = self.old.trace; end = self.old.end } }
    {
        self.failed = Some(self.end());
    }

    /// Keeps a list of messages that are no longer needed, so that the messages of a later turn can reuse its memory.
    pub(crate) fn keep_list(&mut self, out: Vec<Envelope>)
        ensures { self.new ≡ self.old }
    {
        self.state.keep_list(out);
    }

    /// Returns the node's parts, for calls that change nothing, or none if the node has failed.
    pub fn state(&self) -> Option<&NodeState<'c>>
        ensures { MatchOption result (self.now.node ≡ None)
            (λ state. self.now.node ≡ Some state.now) }
    {
        match self.failed {
            Some(_) => None,
            None => Some(&self.state),
        }
    }

    /// Returns whether the node would go on by itself. A failed node would not.
    pub fn ready(&self) -> bool
        ensures { result ≡ unwrap_or (option_map is_ready self.now.node) false }
    {
        self.failed.is_none() && self.state.is_ready()
    }

    /// Returns how the node ended. A failed node ended as it had before it failed.
    pub fn end(&self) -> End
        ensures kept { result ≡ self.now.end }
        ensures sound { (node : NodeRecord) → self.now.node ≡ Some node
            → result ≡ end_of node.course }
    {
        match self.failed {
            Some(end) => end,
            None => self.state.end(),
        }
    }

    /// Returns the accesses that the node made, by interval. Each interval has its epoch and the stamp that it has or
    /// would have.
    pub fn trace(&self) -> &Trace
        ensures { result.now ≡ self.now.trace }
    {
        &self.trace
    }

    /// Returns the trace, once the node makes no further turn. It takes no memory.
    pub(crate) fn into_trace(self) -> Trace
        ensures { result ≡ self.entry.trace }
    {
        self.trace
    }
}
