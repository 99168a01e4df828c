// What the acts so far have led to.

ghost use Rattle.std.specs.Prelude.{◌≡◌, ◌↔◌, ◌≤◌, ◌+◌, ◌++◌, ◌∷◌, [], All, IfOk, IfSome, List, None, OnOk, length, map, slice_index, slice_set};
ghost use Rattle.lrc_lines.specs.Walks.{walk_behind};
ghost use Rattle.lrc_exec.specs.Plain.{start_of};
ghost use Rattle.lrc_private_names.specs.Ways.{IsOnWay, thread_of};
ghost use Rattle.std.specs.List.{range_with_len};
ghost use Rattle.lrc_trace.specs.declared.act.Act.{Act as AnyAct};
ghost use Rattle.lrc_trace.specs.Interval.{closes, interval_at};
ghost use Rattle.lrc_replay.specs.Acts.{Plan as AnyPlan, last_notes, notes_behind, spot_behind};
ghost use Rattle.lrc_replay.specs.Courses.{AreClosed, AreWays, IsCourse, plan_of};
ghost use Rattle.std.specs.Option.{option_to_list};

use crate::notes::{Note, Notes, Spot};
use crate::plan::Plan;
use lrc_exec::code::Code;
use lrc_lines::walks::Walks;
use lrc_private_names::Way;
use lrc_trace::act::{Act, Deed};
use std::alloc::{AllocError, Global};

/// How far the acts have led: the number of acts so far, the next interval of each node, where each node is in the
/// text, the values of its private names, and the last Write to each word.
#[derive(Drop)]
pub struct Course<'c> {
    acts: u64,
    // By nodes; there are no more than 256.
    closed: Vec<u64>,
    walks: Walks<'c>,
    ways: Vec<Way<'c>>,
    notes: Notes,
}

// Whether a deed closes an interval.
fn closes(deed: Deed) -> bool
    ensures { result ≡ closes deed }
{
    matches!(deed, Deed::Acquire(_) | Deed::Release(_) | Deed::Arrive)
}

// Nodes 0, 1, .. at the beginning of a program.
fn ways_at_start<'c>(
    alloc: Global,
    code: &'c Code<'_>,
    nodes: u8,
) -> Result<Vec<Way<'c>>, AllocError>
    ensures on { IfOk result (λ ways. All IsOnWay ways.items) }
    ensures ways { IfOk result (λ ways. map thread_of ways.items
        ≡ map (λ me. start_of code.now nodes me) (range_with_len 0 nodes)) }
{
    let mut ways = Vec::new(alloc);
    for me in 0..nodes {
        ways.push(Way::start(alloc, code, nodes, me)?)?;
    }
    Ok(ways)
}

impl<'c> Course<'c> {
    /// Creates a course before any act.
    pub fn start(alloc: Global, plan: Plan<'c>) -> Result<Course<'c>, AllocError>
        ensures on { IfOk result (λ course. All IsOnWay course.ways.items) }
        ensures course { IfOk result (IsCourse (plan_of plan.entry) []) }
    {
        Ok(Course {
            acts: 0,
            closed: vec![in alloc; 1u64; 256usize]?,
            walks: Walks::start(alloc, plan.code, plan.lines, plan.nodes)?,
            ways: ways_at_start(alloc, plan.code, plan.nodes)?,
            notes: Notes::none(alloc, plan.code.words())?,
        })
    }

    /// Returns how many acts there were so far.
    pub fn acts(&self) -> u64
        ensures { result ≡ self.now.acts }
    {
        self.acts
    }

    /// Returns the spot of the node's next act.
    pub fn spot(&self, node: u8) -> Spot
        ensures { (plan : AnyPlan) (acts : List AnyAct) → IsCourse plan acts self.now
            → result ≡ spot_behind plan acts node }
    {
        Spot {
            position: self.acts,
            line: self.walks.line(node),
            interval: interval_after(&self.closed, node),
        }
    }

    /// Returns the values of the private names of a node, by their numbers, or none if there is no such node.
    pub fn privates(&self, node: u8) -> Option<&[u64; 32]>
        ensures values { (plan : AnyPlan) (acts : List AnyAct) → IsCourse plan acts self.now
            → IfSome result (λ values. values.now
            ≡ (walk_behind plan.program plan.nodes plan.lines acts node).thread.privates) }
        ensures none { (plan : AnyPlan) (acts : List AnyAct) → IsCourse plan acts self.now
            → (result ≡ None) ↔ (plan.nodes ≤ node) }
    {
        let node = usize::from(node);
        if node < self.ways.len() {
            Some(&self.ways[node].spot.privates)
        } else {
            None
        }
    }

    /// Returns the last Write to each word that was written, by word.
    #[tactic(auto, using(crate::proofs::Coursing::notes_are))]
    pub fn notes(&self, alloc: Global) -> Result<Vec<Note>, AllocError>
        ensures { (plan : AnyPlan) (acts : List AnyAct) → IsCourse plan acts self.now
            → IfOk result (λ notes. notes.items
            ≡ last_notes plan.program.words (notes_behind plan [] acts)) }
    {
        self.notes.all(alloc)
    }

    /// Adds the act of a turn, if it makes one. After an error the course is of no further use.
    pub fn follow(&mut self, act: Option<Act>) -> Result<(), AllocError>
        requires { All IsOnWay self.old.ways.items }
        ensures on { All IsOnWay self.new.ways.items }
        ensures course { (plan : AnyPlan) (acts : List AnyAct) → IsCourse plan acts self.old
            → OnOk result (IsCourse plan (acts ++ option_to_list act) self.new) }
    {
        match act {
            Some(act) => self.pass(act),
            None => Ok(()),
        }
    }

    // The act is done.
    fn pass(&mut self, act: Act) -> Result<(), AllocError>
        requires { All IsOnWay self.old.ways.items }
        ensures on { All IsOnWay self.new.ways.items }
        ensures course { (plan : AnyPlan) (acts : List AnyAct) → IsCourse plan acts self.old
            → OnOk result (IsCourse plan (acts ++ act ∷ []) self.new) }
    {
        let spot = self.spot(act.node);
        self.acts = next(self.acts)?;
        self.notes.note(act.node, act.deed, spot);
        lead(&mut self.ways, act);
        close(&mut self.closed, act)?;
        self.walks.follow(&act)
    }
}

// One more, where that is no number that is too large.
fn next(count: u64) -> Result<u64, AllocError>
    ensures { IfOk result (λ more. more ≡ count + 1) }
{
    match count.checked_add(1) {
        Some(more) => Ok(more),
        None => Err(AllocError),
    }
}

// The interval of the node's next act.
#[tactic(auto, using(crate::proofs::Coursing::interval_is, crate::proofs::Coursing::none_past))]
fn interval_after(closed: &[u64], node: u8) -> u64
    ensures { (acts : List AnyAct) → AreClosed acts closed.now
        → result ≡ interval_at acts node (length acts) }
{
    let node = usize::from(node);
    if node < closed.len() { closed[node] } else { 1 }
}

// The private names of the act's node are those once it is done.
fn lead(ways: &mut Vec<Way<'_>>, act: Act)
    requires { All IsOnWay ways.old.items }
    ensures on { All IsOnWay ways.new.items }
    ensures led { (plan : AnyPlan) (acts : List AnyAct) → AreWays plan acts ways.old.items
        → AreWays plan (acts ++ act ∷ []) ways.new.items }
{
    let node = usize::from(act.node);
    if node < ways.len() {
        ways[node].follow(0, act.deed);
    }
}

// Counts the act, if it closes an interval.
fn close(closed: &mut Vec<u64>, act: Act) -> Result<(), AllocError>
    ensures { (acts : List AnyAct) → AreClosed acts closed.old.items
        → OnOk result (AreClosed (acts ++ act ∷ []) closed.new.items) }
{
    if closes(act.deed) {
        return open_next(closed, act.node);
    }
    Ok(())
}

// The next interval of a node is one later.
fn open_next(closed: &mut Vec<u64>, node: u8) -> Result<(), AllocError>
    ensures { length closed.old.items ≡ 256
        → OnOk result (closed.new.items
        ≡ slice_set closed.old.items node (slice_index closed.old.items node + 1)) }
{
    let node = usize::from(node);
    if node < closed.len() {
        closed[node] = next(closed[node])?;
    }
    Ok(())
}
