// A node with its log.

ghost use Rattle.std.specs.Prelude.{◌≡◌, ◌<◌, ◌≤◌, ◌+◌, ℕ, Err, IfErr, IfNone, IfOk, IfSome, MatchResult, None, OnErr, OnOk, [], false, max, true, vec_capacity, vec_len};
ghost use Rattle.lrc_program.specs.declared.Program.{Program};
ghost use Rattle.lrc_protocol.specs.Node.{OptionsRecord};
ghost use Rattle.lrc_protocol.specs.Run as log;
ghost use Rattle.lrc_protocol.specs.Run.{MOST_STAMP};
ghost use Rattle.lrc_protocol.specs.Turn.{is_ready};
ghost use Rattle.lrc_node.specs.Fault.{MayAnswer, is_final};
ghost use Rattle.lrc_node.specs.Logged.{LogsTo, MakesBox, MakesRoom, NotesIn, Settles, WearsOut, end_next, ended_by, entered_in, newest, sound};
ghost use Rattle.lrc_log.specs.Input.{seen_input};
ghost use Rattle.lrc_node.specs.Whole.{IsWholeLog};
ghost use Rattle.lrc_control.specs.Text.{end_of};
ghost use Rattle.lrc_node.specs.declared.fault.NodeFault.TheVariants.{Failed};

use crate::fault::NodeFault;
use crate::node::Node;
use lrc_envelope::Envelope;
use lrc_exec::machine::Ask;
use lrc_log::{Entry, Input, Turn};
use lrc_trace::act::{Act, Deed};
use lrc_trace::end::End;
use lrc_trace::trace::Trace;
use std::alloc::Global;
use std::marker::Model;

/// A node with its log: the turns that it made, with their stamps. The stamp of a turn is the greater of two stamps
/// plus one: that of the node's last turn, and that of the turn that sent the message. A refused call adds nothing to
/// the log.
#[derive(Drop)]
pub struct Logged<'c> {
    node: Node<'c>,
    stamp: u64,
    log: Vec<Entry>,
    // The box of a message that was forgotten, for the next one that is taken.
    spare: Option<Box<Envelope>>,
}

impl<'c> Model for Logged<'c> {
    ghost use Rattle.std.specs.Prelude.{◌≡◌};
    ghost use Rattle.std.specs.Coded.{codes};
    ghost use Rattle.lrc_program.specs.contracts.Statement as statement;
    ghost use Rattle.lrc_protocol.specs.Run.{last_stamp};
    ghost use Rattle.lrc_node.specs.Logged.{TracedLog};

    ghost Value = { TracedLog };

    ghost coded = { Prim.hlevel (codes, statement.the_row.coded) };

    ghost view = { λ l. record { logged = record { node = l.node.node; log = l.log.items }; trace = l.node.trace } };

    ghost invariant = { λ l. l.stamp ≡ last_stamp l.log.items };
}

impl<'c> Logged<'c> {
    /// Creates the log of a node that has made no turn.
    pub fn new(alloc: Global, node: Node<'c>) -> Logged<'c>
        ensures { result
            ≡ record
            { logged = record { node = node.entry.node; log = [] }; trace = node.entry.trace } }
    {
        Logged {
            node,
            stamp: 0,
            log: Vec::new(alloc),
            spare: None,
        }
    }

    /// Lets the node go on by itself, and logs the turn.
    ///
    /// It is refused, in this order, with: `Failed`; `NoMemory` if there is no memory for the log; `NotReady` if the
    /// node waits, has stopped, or has used up its steps; `Worn` if the stamp would be too large; or as the turn itself
    /// is. `Failed` and `NotReady` change nothing. After `Worn` and `NoMemory` the node has failed. A refused call adds
    /// nothing to the log or the trace.
    pub fn run(&mut self) -> Result<(), NodeFault>
        ensures logs { LogsTo self.old.logged log.run 0 self.new.logged result }
        ensures notes { NotesIn self.old self.new result }
        ensures failed { self.old.logged.node ≡ None
            → (result ≡ Err Failed) × (self.new ≡ self.old) }
        ensures fails { IfErr result (λ fault. is_final fault ≡ true
            → self.new.logged ≡ record { node = None; log = self.old.logged.log }) }
        ensures fault { IfErr result (MayAnswer log.run) }
        ensures kept { OnErr result (self.new.logged.log ≡ self.old.logged.log) }
        ensures whole { (program : Program) (nodes : ℕ) (options : OptionsRecord) (me : ℕ)
            → IsWholeLog program nodes options me self.old
            → IsWholeLog program nodes options me self.new }
    {
        make_room(&mut self.node, &mut self.log)?;
        let wish = self.node.wish();
        let Some(stamp) = stamp_after(self.stamp, 0) else {
            return wear_out(&mut self.node, wish.is_some(), NodeFault::NotReady);
        };
        if let Some(Ask::Quiet) = wish {
            let turn = self.node.run_quietly();
            enter(&mut self.log, &mut self.stamp, Input::Run, stamp, turn);
            return Ok(());
        }
        let outcome = self.node.run_wish(wish);
        settle(&mut self.log, &mut self.stamp, Input::Run, stamp, outcome)
    }

    /// Takes a message that came with the stamp of the turn that sent it, and logs the turn.
    ///
    /// It is refused, in this order, with: `Failed`; `NoMemory` if there is no memory for the log; `Unexpected` if the
    /// node does not expect the message; `Worn` if the stamp would be too large; or as the turn itself is. `Failed` and
    /// `Unexpected` change nothing. After `Worn` and `NoMemory` the node has failed. A refused call adds nothing to the
    /// log or the trace.
    pub fn take(&mut self, envelope: Envelope, stamp: u64) -> Result<(), NodeFault>
        ensures logs { LogsTo self.old.logged (log.taken envelope) stamp self.new.logged result }
        ensures notes { NotesIn self.old self.new result }
        ensures failed { self.old.logged.node ≡ None
            → (result ≡ Err Failed) × (self.new ≡ self.old) }
        ensures fails { IfErr result (λ fault. is_final fault ≡ true
            → self.new.logged ≡ record { node = None; log = self.old.logged.log }) }
        ensures fault { IfErr result (MayAnswer (log.taken envelope)) }
        ensures kept { OnErr result (self.new.logged.log ≡ self.old.logged.log) }
        ensures whole { (program : Program) (nodes : ℕ) (options : OptionsRecord) (me : ℕ)
            → IsWholeLog program nodes options me self.old
            → IsWholeLog program nodes options me self.new }
    {
        make_room(&mut self.node, &mut self.log)?;
        let alloc = *self.log.allocator();
        let boxed = make_box(&mut self.node, &mut self.spare, alloc, envelope)?;
        let Some(own) = stamp_after(self.stamp, stamp) else {
            let awaited = self.node.awaits(&boxed);
            return wear_out(&mut self.node, awaited, NodeFault::Unexpected);
        };
        let outcome = self.node.take(&boxed);
        settle(
            &mut self.log,
            &mut self.stamp,
            Input::Taken(boxed),
            own,
            outcome,
        )
    }

    // Keeps what memory a forgotten turn holds, for later ones: the list of what it sent, and the box of its message. Most
    // turns hold none.
    #[inline(always)]
    fn keep(&mut self, forgotten: Entry)
        ensures { self.new ≡ self.old }
    {
        let Entry { input, turn, .. } = forgotten;
        if turn.out.capacity() > 0 {
            self.node.keep_list(turn.out);
        }
        if let Input::Taken(boxed) = input {
            self.spare = Some(boxed);
        }
    }

    /// Returns whether the node would go on by itself. A failed node would not.
    pub fn ready(&self) -> bool
        ensures sound { (l : log.Logged) → self.now.logged ≡ sound l → result ≡ is_ready l.node }
        ensures failed { self.now.logged.node ≡ None → result ≡ false }
    {
        self.node.ready()
    }

    /// Returns how the node ended. If the node has failed, its log tells that.
    pub fn end(&self) -> End
        ensures sound { (l : log.Logged) → self.now.logged ≡ sound l
            → result ≡ end_of l.node.course }
        ensures failed { self.now.logged.node ≡ None → result ≡ ended_by self.now.logged.log }
    {
        if self.node.has_failed() {
            end_in_log(&self.log)
        } else {
            self.node.end()
        }
    }

    /// Returns the accesses that the node made, by interval.
    pub fn trace(&self) -> &Trace
        ensures { result.now ≡ self.now.trace }
    {
        self.node.trace()
    }

    /// Returns the turns so far, with their stamps.
    pub fn log(&self) -> &[Entry]
        ensures { result.now ≡ self.now.logged.log }
    {
        self.log.as_slice()
    }

    /// Forgets all turns but the newest. Nothing that the node does later depends on the forgotten ones, with one
    /// exception: once the node has failed, `end` is told by the turns that are left.
    pub fn forget(&mut self)
        ensures log { self.new.logged ≡ record
            { node = self.old.logged.node; log = newest self.old.logged.log } }
        ensures trace { self.new.trace ≡ self.old.trace }
    {
        let count = self.log.len();
        if count > 1 {
            let oldest = self.log.swap_remove(0);
            self.log.truncate(1);
            self.keep(oldest);
        }
    }

    /// Returns the turns with their stamps, and the trace, once the run is over. It takes no memory.
    pub fn into_parts(self) -> (Vec<Entry>, Trace)
        ensures log { result.0.items ≡ self.entry.logged.log }
        ensures trace { result.1 ≡ self.entry.trace }
    {
        let Logged {
            node,
            stamp: _,
            log,
            spare: _,
        } = self;
        (log, node.into_trace())
    }
}

// Makes room in a node's log for one turn more. Without memory the node fails.
fn make_room(node: &mut Node<'_>, log: &mut Vec<Entry>) -> Result<(), NodeFault>
    ensures made { MakesRoom node.old node.new result }
    ensures room { OnOk result (vec_len log.new < vec_capacity log.new) }
    ensures same { log.new.items ≡ log.old.items }
{
    if node.has_failed() {
        return Err(NodeFault::Failed);
    }
    if log.reserve(1).is_err() {
        node.fail();
        return Err(NodeFault::NoMemory);
    }
    Ok(())
}

// The message in a box, that of a message that was forgotten where there is one. Without memory the node fails.
fn make_box(
    node: &mut Node<'_>,
    spare: &mut Option<Box<Envelope>>,
    alloc: Global,
    envelope: Envelope,
) -> Result<Box<Envelope>, NodeFault>
    ensures boxed { IfOk result (λ boxed. boxed.value ≡ envelope) }
    ensures made { MakesBox node.old node.new result }
{
    let Some(boxed) = boxed(spare, alloc, envelope) else {
        node.fail();
        return Err(NodeFault::NoMemory);
    };
    Ok(boxed)
}

// The same; none without memory.
fn boxed(
    spare: &mut Option<Box<Envelope>>,
    alloc: Global,
    envelope: Envelope,
) -> Option<Box<Envelope>>
    ensures { IfSome result (λ boxed. boxed.value ≡ envelope) }
{
    match spare.take() {
        Some(mut spare) => {
            *spare = envelope;
            Some(spare)
        }
        None => Box::new(alloc, envelope).ok(),
    }
}

// The stamp of a turn, if there is one: one more than the greater of the node's last one and of the one that came.
#[inline(always)]
fn stamp_after(last: u64, came: u64) -> Option<u64>
    ensures stamp { IfSome result (λ stamp. stamp ≡ max last came + 1) }
    ensures few { IfSome result (λ stamp. stamp ≤ MOST_STAMP) }
    ensures worn { IfNone result (MOST_STAMP < max last came + 1) }
{
    last.max(came).checked_add(1)
}

// What a node answers that has no stamp left: that it waits for something else, as before, or it fails.
fn wear_out(node: &mut Node<'_>, awaited: bool, refusal: NodeFault) -> Result<(), NodeFault>
    ensures { WearsOut node.old awaited refusal node.new result }
{
    if !awaited {
        return Err(refusal);
    }
    node.fail();
    Err(NodeFault::Worn)
}

// Adds a turn that was made, with its stamp; a refusal adds nothing.
#[inline(always)]
fn settle(
    log: &mut Vec<Entry>,
    last: &mut u64,
    input: Input,
    stamp: u64,
    outcome: Result<Turn, NodeFault>,
) -> Result<(), NodeFault>
    requires { vec_len log.old < vec_capacity log.old }
    ensures settled { Settles log.old.items (seen_input input) stamp outcome log.new.items result }
    ensures last { MatchResult outcome (λ turn. last.new ≡ stamp) (λ fault. last.new ≡ last.old) }
{
    match outcome {
        Ok(turn) => {
            enter(log, last, input, stamp, turn);
            Ok(())
        }
        Err(fault) => Err(fault),
    }
}

// Adds a turn with its stamp.
#[inline(always)]
fn enter(log: &mut Vec<Entry>, last: &mut u64, input: Input, stamp: u64, turn: Turn)
    requires { vec_len log.old < vec_capacity log.old }
    ensures log { log.new.items ≡ entered_in log.old.items (seen_input input) stamp turn }
    ensures last { last.new ≡ stamp }
{
    log.push_reserved(Entry { input, stamp, turn });
    *last = stamp;
}

// How a node ended with this log.
fn end_in_log(log: &[Entry]) -> End
    ensures { result ≡ ended_by log.now }
{
    let mut end = End::Unfinished;
    for entry in log {
        end = end_next(end, entry.turn.act);
    }
    end
}

// How a node ended that had ended so before, with the act of its next turn if that makes one.
fn end_next(before: End, act: Option<Act>) -> End
    ensures { result ≡ end_next before act }
{
    let Some(act) = act else {
        return before;
    };
    match act.deed {
        Deed::End => End::Ended,
        Deed::Trap(cause) => End::Trapped(cause),
        _ => End::Unfinished,
    }
}
