// What the acts so far leave for the times of the next.

ghost use Rattle.std.specs.Prelude.{◌≡◌, ◌<◌, ◌≤◌, IfSome, OnOk, length, slice_index_or};
ghost use Rattle.lrc_judge.specs.declared.TheConstants.{NODES};
ghost use Rattle.lrc_clock.specs.declared.past.TheConstants.{LOCKS};
ghost use Rattle.lrc_time.specs.Time.{entry, zeros};
ghost use Rattle.lrc_clock.specs.Times.{raised, time_or_zeros};
ghost use Rattle.lrc_clock.specs.Joined.{IsJoined};

use lrc_judge::NODES;
use lrc_time::Time;
use lrc_trace::act::{Act, Deed};
use std::alloc::{AllocError, Global};

/// The number of locks that an act can name.
const LOCKS: usize = 256;

/// What the acts so far leave: the last positions of nodes and locks, the times of barriers, and how often each node
/// arrived and departed.
#[derive(Drop)]
pub(crate) struct Past {
    /// For each node, the position of its last act.
    acted: [Option<usize>; NODES],
    /// For each lock, the position of its last release.
    released: [Option<usize>; LOCKS],
    /// For each number, what was known at the arrives that have this many arrives of their own node before them.
    arrived: Vec<Time>,
    /// How often each node has arrived.
    arrives: [usize; NODES],
    /// How often each node has departed.
    departs: [usize; NODES],
    ghost all_acted: { length acted ≡ NODES },
    ghost all_released: { length released ≡ LOCKS },
    ghost all_arrives: { length arrives ≡ NODES },
    ghost all_departs: { length departs ≡ NODES },
}

// The time at this position, or zeros where there is none.
fn time_at(times: &[Time], position: Option<usize>, nodes: u8) -> Time
    requires some { 1 ≤ nodes }
    requires few { nodes ≤ 16 }
    requires within { IfSome position (λ i. i < length times.now) }
    ensures { result ≡ time_or_zeros nodes times.now position }
{
    match position {
        Some(position) => times[position].copy(),
        None => Time::new(nodes),
    }
}

// The node closes an interval.
fn close(time: &mut Time, node: u8)
    requires in_range { node < length time.old }
    requires few { entry time.old node < 4294967295 }
    ensures { time.new ≡ raised time.old node }
{
    let index = time.at(node) + 1;
    time.raise(node, index);
}

// Joins a time with that of a barrier. There is none yet for the first node that comes to it.
fn join_at(barriers: &mut Vec<Time>, place: usize, time: &Time, nodes: u8) -> Result<(), AllocError>
    requires some { 1 ≤ nodes }
    requires few { nodes ≤ 16 }
    requires place { place ≤ length barriers.old.items }
    requires long { length time.now ≡ nodes }
    requires entries { length (slice_index_or barriers.old.items place (zeros nodes)) ≡ nodes }
    ensures { OnOk result (IsJoined nodes place time.now barriers.old.items barriers.new.items) }
{
    if place < barriers.len() {
        barriers[place].join(time);
        return Ok(());
    }
    let mut first = Time::new(nodes);
    first.join(time);
    barriers.push(first)?;
    Ok(())
}

impl Past {
    ghost use Rattle.std.specs.Prelude.{◌≡◌, ◌<◌, ◌≤◌, ◌+◌, ◌^◌, ◌++◌, ◌∷◌, ℕ, [], OnOk, length};
    ghost use Rattle.lrc_trace.specs.Run.{departs_before};
    ghost use Rattle.lrc_clock.specs.Keeping.{KeepsTime, next_act_time};
    ghost use Rattle.lrc_clock.specs.Times.{arrived_time, released_time, time_before};
    ghost use Rattle.lrc_clock.specs.Past.{IsTimedPast};

    /// Returns the past before any act.
    pub(crate) fn new(alloc: Global) -> Past
        ensures { (nodes : ℕ) → IsTimedPast nodes [] [] result }
    {
        Past {
            acted: [None; NODES],
            released: [None; LOCKS],
            arrived: Vec::new(alloc),
            arrives: [0; NODES],
            departs: [0; NODES],
        }
    }

    // The time of a node after these acts.
    fn of_node(&self, acts: &[Act], times: &[Time], node: u8, nodes: u8) -> Time
        requires some { 1 ≤ nodes }
        requires few { nodes ≤ 16 }
        requires past { IsTimedPast nodes acts.now times.now self.now }
        requires node { node < nodes }
        ensures { result ≡ time_before nodes acts.now times.now node (length acts.now) }
    {
        time_at(times, self.acted[usize::from(node)], nodes)
    }

    // The time at the last release of a lock among these acts.
    fn of_lock(&self, acts: &[Act], times: &[Time], lock: u8, nodes: u8) -> Time
        requires some { 1 ≤ nodes }
        requires few { nodes ≤ 16 }
        requires past { IsTimedPast nodes acts.now times.now self.now }
        ensures { result ≡ released_time nodes acts.now times.now lock (length acts.now) }
    {
        time_at(times, self.released[usize::from(lock)], nodes)
    }

    // The join of the times at the arrives with the number that the next depart of the node has.
    fn of_barrier(&self, acts: &[Act], times: &[Time], node: u8, nodes: u8) -> Time
        requires some { 1 ≤ nodes }
        requires few { nodes ≤ 16 }
        requires past { IsTimedPast nodes acts.now times.now self.now }
        requires node { node < nodes }
        ensures { result ≡ arrived_time nodes acts.now times.now
            (departs_before acts.now node (length acts.now)) (length acts.now) }
    {
        match self.arrived.get(self.departs[usize::from(node)]) {
            Some(time) => time.copy(),
            None => Time::new(nodes),
        }
    }

    /// Returns the time just after `act`, which follows `acts`.
    pub(crate) fn time_after(&self, acts: &[Act], times: &[Time], act: Act, nodes: u8) -> Time
        requires some { 1 ≤ nodes }
        requires few { nodes ≤ 16 }
        requires node { act.node < nodes }
        requires short { length acts.now + 1 < 2 ^ 32 }
        requires keeps { KeepsTime nodes acts.now times.now }
        requires past { IsTimedPast nodes acts.now times.now self.now }
        ensures { result ≡ next_act_time nodes acts.now times.now act.node act.deed }
    {
        let mut time = self.of_node(acts, times, act.node, nodes);
        match act.deed {
            Deed::Acquire(lock) => {
                close(&mut time, act.node);
                time.join(&self.of_lock(acts, times, lock, nodes));
            }
            Deed::Release(_) | Deed::Arrive => close(&mut time, act.node),
            Deed::Depart => time.join(&self.of_barrier(acts, times, act.node, nodes)),
            _ => {}
        }
        time
    }

    /// Takes in an act that follows these, and its time. It fails if memory runs out; what is then noted is
    /// unspecified.
    pub(crate) fn note(
        &mut self,
        acts: &[Act],
        times: &[Time],
        act: Act,
        time: &Time,
        nodes: u8,
    ) -> Result<(), AllocError>
        requires some { 1 ≤ nodes }
        requires few { nodes ≤ 16 }
        requires node { act.node < nodes }
        requires short { length acts.now + 1 < 2 ^ 32 }
        requires keeps { KeepsTime nodes acts.now times.now }
        requires past { IsTimedPast nodes acts.now times.now self.old }
        requires time { time.now ≡ next_act_time nodes acts.now times.now act.node act.deed }
        ensures { OnOk result (IsTimedPast nodes (acts.now ++ act ∷ [])
            (times.now ++ time.now ∷ []) self.new) }
    {
        let node = usize::from(act.node);
        self.acted[node] = Some(times.len());
        match act.deed {
            Deed::Release(lock) => {
                self.released[usize::from(lock)] = Some(times.len());
                Ok(())
            }
            Deed::Arrive => {
                let number = self.arrives[node];
                self.arrives[node] = number + 1;
                join_at(&mut self.arrived, number, time, nodes)
            }
            Deed::Depart => {
                self.departs[node] += 1;
                Ok(())
            }
            _ => Ok(()),
        }
    }
}
