// A node's part in barriers.

ghost use Rattle.std.specs.Prelude.{◌≡◌, ℕ, ◌<◌, ◌≤◌, IfOk, IfSome, IsTrue, MatchOption, OnErr, None, Some, length, false, option_map, unwrap_or};
ghost use Rattle.lrc_barrier.specs.Barrier.{is_accepted, IsArrival, is_clean};
ghost use Rattle.lrc_barrier.specs.declared.arrival.Arrival.{Arrival as ArrivalRecord};
ghost use Rattle.lrc_protocol.specs.Times.{MOST_NUMBER};
ghost use Rattle.lrc_protocol.specs.Barriers.{fresh_barrier, last_arrived, with_arrive};
ghost use Rattle.lrc_control.specs.Barrier.{arrival_taken, clean_taken, AreDepartures, IsOfNodes, SameBarrier, arrive_step, clean_step};

use lrc_barrier::{Arrival, BarrierFault, Departures, Manager};
use std::alloc::{AllocError, Global};
use std::marker::Model;

/// A node's part in barriers: how often it has arrived, and up to which index it has sent its intervals with an
/// arrival. Node 0 also has the manager of barriers.
#[derive(Drop)]
pub struct Barrier {
    episode: u32,
    sent: u32,
    manager: Option<Manager>,
}

impl Model for Barrier {
    ghost use Rattle.std.specs.Prelude.{IfSome};
    ghost use Rattle.lrc_protocol.specs.Barriers.{Barrier as BarrierRecord};
    ghost use Rattle.lrc_control.specs.Barrier.{KeepsEpisodes};

    ghost Value = { BarrierRecord };

    ghost view = { λ b. record { episode = b.episode; sent = b.sent; manager = b.manager } };

    ghost invariant = { λ b. IfSome b.manager KeepsEpisodes };
}

impl Barrier {
    /// Creates the part of node `me` in a run of 1 to 16 nodes, before any arrival.
    pub fn new(alloc: Global, me: u8, nodes: u8) -> Barrier
        requires some { 1 ≤ nodes }
        requires few { nodes ≤ 16 }
        ensures { result ≡ fresh_barrier me nodes }
    {
        let manager = if me == 0 {
            Some(Manager::new(alloc, nodes))
        } else {
            None
        };
        Barrier {
            episode: 0,
            sent: 0,
            manager,
        }
    }

    /// Returns the manager of barriers, if this node has it.
    pub fn manager(&self) -> Option<&Manager>
        ensures { MatchOption result (self.now.manager ≡ None)
            (λ manager. self.now.manager ≡ Some manager.now) }
    {
        match &self.manager {
            Some(manager) => Some(manager),
            None => None,
        }
    }

    /// Returns how often the node has arrived.
    pub fn episode(&self) -> u32
        ensures { result ≡ self.now.episode }
    {
        self.episode
    }

    /// Returns the index of the node's newest interval that it has sent with an arrival, or 0 if it has sent none.
    pub fn sent(&self) -> u32
        ensures { result ≡ self.now.sent }
    {
        self.sent
    }

    /// Notes that the node arrives again, and sends its intervals up to this index.
    pub fn arrive(&mut self, index: u32)
        requires { self.old.episode < MOST_NUMBER }
        ensures barrier { self.new ≡ with_arrive index self.old }
        ensures same { SameBarrier self.old self.new }
    {
        self.episode += 1;
        self.sent = index;
    }

    /// Returns the index of a node's newest interval that has reached the manager, or 0 if the manager is not here.
    pub fn last_from(&self, from: u8) -> u32
        requires { IfSome self.now.manager (λ manager. from < length manager.last) }
        ensures { result ≡ last_arrived self.now from }
    {
        match &self.manager {
            Some(manager) => manager.last(from),
            None => 0,
        }
    }

    /// Returns whether the manager is here and would accept a node's arrival in this episode.
    pub fn accepts(&self, from: u8, episode: u32) -> bool
        requires { IfSome self.now.manager (λ manager. from < length manager.last) }
        ensures { (arrival : ArrivalRecord) → arrival.episode ≡ episode
            → result ≡ unwrap_or (option_map is_accepted (arrive_step self.now from arrival))
            false }
    {
        match &self.manager {
            Some(manager) => manager.accepts(from, episode),
            None => false,
        }
    }

    /// Returns whether the manager is here and would accept a node's Clean for this episode.
    pub fn accepts_clean(&self, from: u8, episode: u32) -> bool
        requires { IfSome self.now.manager (λ manager. from < length manager.last) }
        ensures { result ≡ unwrap_or (option_map is_clean (clean_step self.now from episode))
            false }
    {
        match &self.manager {
            Some(manager) => manager.accepts_clean(from, episode),
            None => false,
        }
    }

    /// Takes a node's arrival at the manager, which must be here and accept it. The last arrival of an episode returns
    /// the departures. On error the barrier does not change.
    pub fn take_arrival(
        &mut self,
        from: u8,
        arrival: Arrival,
    ) -> Result<Option<Departures>, AllocError>
        requires accepted { IsTrue (unwrap_or (option_map is_accepted
            (arrive_step self.old from arrival)) false) }
        requires own { IfSome self.old.manager (λ manager. (from < length manager.last)
            × IsArrival (length manager.last) from arrival) }
        requires begun { 1 ≤ arrival.episode }
        ensures taken { IfOk result (λ answer. arrival_taken self.old
            (arrive_step self.old from arrival) ≡ Some (answer, self.new)) }
        ensures same { SameBarrier self.old self.new }
        ensures unchanged { OnErr result (self.new ≡ self.old) }
        ensures departures { (nodes : ℕ) → IsOfNodes nodes self.old
            → IfOk result (λ answer. IfSome answer (AreDepartures nodes)) }
    {
        let Some(manager) = &mut self.manager else {
            unreachable!()
        };
        match manager.take(from, arrival) {
            Ok(departures) => Ok(departures),
            Err(BarrierFault::NoMemory) => Err(AllocError),
            Err(BarrierFault::WrongEpisode | BarrierFault::Twice) => unreachable!(),
        }
    }

    /// Takes a node's Clean at the manager, which must be here and accept it. The last Clean returns the episode for
    /// which all nodes may discard.
    pub fn take_clean(&mut self, from: u8, episode: u32) -> Option<u32>
        requires accepted { IsTrue (unwrap_or (option_map is_clean
            (clean_step self.old from episode)) false) }
        requires from { IfSome self.old.manager (λ manager. from < length manager.last) }
        ensures taken { clean_taken self.old (clean_step self.old from episode)
            ≡ Some (result, self.new) }
        ensures same { SameBarrier self.old self.new }
    {
        let Some(manager) = &mut self.manager else {
            unreachable!()
        };
        let Ok(last) = manager.clean(from, episode) else {
            unreachable!()
        };
        last
    }
}
