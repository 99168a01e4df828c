// The manager of the barrier.

ghost use Rattle.std.specs.Prelude.{◌≡◌, ◌<◌, ◌≤◌, ◌+◌, ◌^◌, Bool, if◌then◌else◌, All, Err, IfErr, IfOk, IfSome, IsTrue, OnErr, OnOk, None, Ok};
ghost use Rattle.std.specs.Prelude.{Some, Option, is_ok, is_some, length, option_map, replicate, slice_index, slice_index_or, slice_set};
ghost use Rattle.std.specs.List.{list_all};
ghost use Rattle.lrc_barrier.specs.Barrier.{first_manager, arrived, arrive_answer, after_arrive, is_accepted, is_next, has_arrived, with_arrival};
ghost use Rattle.lrc_barrier.specs.Barrier.{departed, arrivals_of, departures_of, cleaned, clean_answer, after_clean, IsArrival, IsDeparture, refuses};
ghost use Rattle.lrc_barrier.specs.declared.arrival.Arrival.{Arrival};
ghost use Rattle.lrc_barrier.specs.declared.fault.BarrierFault.{BarrierFault};
ghost use Rattle.lrc_barrier.specs.declared.fault.BarrierFault.TheVariants.{NoMemory, WrongEpisode, Twice};

use crate::arrival::Arrival;
use crate::departing::{collects, departures};
use crate::departure::Departures;
use crate::fault::BarrierFault;
use arrayvec::ArrayVec;
use lrc_time::MOST_NODES;
use std::alloc::Global;
use std::marker::Model;

/// What the barrier's manager knows: how many episodes are over, which nodes have arrived at the episode under way, and
/// which have sent their Clean in a collection under way.
#[derive(Drop)]
pub struct Manager {
    alloc: Global,
    done: u32,
    last: ArrayVec<u32, MOST_NODES>,
    arrivals: ArrayVec<Option<Arrival>, MOST_NODES>,
    cleans: Option<ArrayVec<bool, MOST_NODES>>,
}

impl Model for Manager {
    ghost use Rattle.std.specs.Option.{option_map};
    ghost use Rattle.lrc_barrier.specs.Barrier.{ManagerRecord, IsManager};

    ghost Value = { ManagerRecord };

    ghost view = { λ m. record {
      done = m.done;
      last = m.last.items;
      arrivals = m.arrivals.items;
      cleans = option_map (λ cleans. cleans.items) m.cleans;
    } };

    ghost invariant = { λ m. IsManager (record {
      done = m.done;
      last = m.last.items;
      arrivals = m.arrivals.items;
      cleans = option_map (λ cleans. cleans.items) m.cleans;
    }) };
}

impl Manager {
    /// Returns the manager of a barrier for 1 to 16 nodes, before any arrival.
    pub fn new(alloc: Global, nodes: u8) -> Self
        requires some { 1 ≤ nodes }
        requires few { nodes ≤ 16 }
        ensures { result ≡ first_manager nodes }
    {
        Manager {
            alloc,
            done: 0,
            last: nothing_known(nodes),
            arrivals: nobody(nodes),
            cleans: None,
        }
    }

    /// Returns how many episodes are over.
    pub fn done(&self) -> u32
        ensures { result ≡ self.now.done }
    {
        self.done
    }

    /// Returns whether the node has arrived at the episode under way.
    pub fn has_arrived(&self, node: u8) -> bool
        requires { node < length self.now.last }
        ensures { result ≡ has_arrived self.now node }
    {
        self.arrivals[usize::from(node)].is_some()
    }

    /// Returns whether the node has sent its Clean, or none if no collection is under way.
    pub fn has_cleaned(&self, node: u8) -> Option<bool>
        requires { node < length self.now.last }
        ensures { result ≡ option_map (λ cleans. slice_index_or cleans node Bool.false)
            self.now.cleans }
    {
        match &self.cleans {
            Some(cleans) => Some(cleans[usize::from(node)]),
            None => None,
        }
    }

    /// Returns how many intervals the node had closed when it last arrived, or 0 before its first arrival.
    pub fn last(&self, node: u8) -> u32
        requires { node < length self.now.last }
        ensures { result ≡ slice_index self.now.last node }
    {
        self.last[usize::from(node)]
    }

    /// Returns whether the node's arrival at the given episode would be accepted now.
    pub fn accepts(&self, from: u8, episode: u32) -> bool
        requires { from < length self.now.last }
        ensures { (arrival : Arrival) → arrival.episode ≡ episode
            → result ≡ is_accepted (arrived self.now from arrival) }
    {
        self.expect(from, episode).is_ok()
    }

    /// Returns whether the node's Clean for the given episode would be accepted now.
    pub fn accepts_clean(&self, from: u8, episode: u32) -> bool
        requires { from < length self.now.last }
        ensures { result ≡ is_ok (clean_answer (cleaned self.now from episode)) }
    {
        match &self.cleans {
            Some(cleans) => episode == self.done && !cleans[usize::from(from)],
            None => false,
        }
    }

    /// Takes a node's arrival. The last arrival of an episode returns the departures, one for each node from node 0 on;
    /// a collection begins if some arrival asked for it.
    ///
    /// A refusal changes nothing. The reasons, in this order: `WrongEpisode` if the episode is not the next one, or a
    /// collection is under way; `Twice` if the node has already arrived at it; `NoMemory` if memory runs out.
    pub fn arrive(
        &mut self,
        from: u8,
        arrival: &Arrival,
    ) -> Result<Option<Departures>, BarrierFault>
        requires from { from < length self.old.last }
        requires own { IsArrival (length self.old.last) from arrival.now }
        ensures refused { (fault : BarrierFault) → arrived self.old from arrival.now ≡ refuses fault
            → result ≡ Err fault }
        ensures answer { IfOk result (λ answer. arrive_answer (arrived self.old from arrival.now)
            ≡ Ok answer) }
        ensures manager { OnOk result (self.new ≡ after_arrive self.old
            (arrived self.old from arrival.now)) }
        ensures memory { IsTrue (is_accepted (arrived self.old from arrival.now))
            → IfErr result (λ fault. fault ≡ NoMemory) }
        ensures nodes { length self.new.last ≡ length self.old.last }
        ensures err { OnErr result (self.new ≡ self.old) }
        ensures departures { IfOk result (λ answer. IfSome answer
            (All (IsDeparture (length self.old.last)))) }
    {
        self.expect(from, arrival.episode)?;
        self.take(from, arrival.duplicate()?)
    }

    /// Does the same as `arrive`, but keeps the given arrival itself, not a copy.
    pub fn take(&mut self, from: u8, arrival: Arrival) -> Result<Option<Departures>, BarrierFault>
        requires from { from < length self.old.last }
        requires own { IsArrival (length self.old.last) from arrival }
        ensures refused { (fault : BarrierFault) → arrived self.old from arrival ≡ refuses fault
            → result ≡ Err fault }
        ensures answer { IfOk result (λ answer. arrive_answer (arrived self.old from arrival)
            ≡ Ok answer) }
        ensures manager { OnOk result (self.new ≡ after_arrive self.old
            (arrived self.old from arrival)) }
        ensures memory { IsTrue (is_accepted (arrived self.old from arrival))
            → IfErr result (λ fault. fault ≡ NoMemory) }
        ensures nodes { length self.new.last ≡ length self.old.last }
        ensures err { OnErr result (self.new ≡ self.old) }
        ensures departures { IfOk result (λ answer. IfSome answer
            (All (IsDeparture (length self.old.last)))) }
    {
        self.expect(from, arrival.episode)?;
        if self.is_last(from) {
            let collect = collects(self.arrivals.as_slice(), &arrival);
            let departures = departures(self.alloc, self.arrivals.as_slice(), &arrival)?;
            self.depart(from, arrival.time.at(from), collect);
            Ok(Some(departures))
        } else {
            self.keep(from, arrival);
            Ok(None)
        }
    }

    /// Takes a node's Clean: the node has brought its pages up to date. The last node's Clean ends the collection, and
    /// returns its episode.
    ///
    /// A refusal changes nothing. The reasons, in this order: `WrongEpisode` if no collection of this episode is under
    /// way; `Twice` if the node has already sent its Clean.
    pub fn clean(&mut self, from: u8, episode: u32) -> Result<Option<u32>, BarrierFault>
        requires { from < length self.old.last }
        ensures answer { result ≡ clean_answer (cleaned self.old from episode) }
        ensures manager { self.new ≡ after_clean self.old (cleaned self.old from episode) }
        ensures nodes { length self.new.last ≡ length self.old.last }
    {
        let Some(cleans) = &mut self.cleans else {
            return Err(BarrierFault::WrongEpisode);
        };
        if episode != self.done {
            return Err(BarrierFault::WrongEpisode);
        }
        if cleans[usize::from(from)] {
            return Err(BarrierFault::Twice);
        }
        if note_clean(cleans, from) {
            self.cleans = None;
            Ok(Some(episode))
        } else {
            Ok(None)
        }
    }
}

impl Manager {
    // Whether the node may arrive at this episode now.
    fn expect(&self, from: u8, episode: u32) -> Result<(), BarrierFault>
        requires { from < length self.now.last }
        ensures { result ≡ (if is_next self.now episode
            then (if has_arrived self.now from then Err Twice else Ok tt)
            else Err WrongEpisode) }
    {
        if self.cleans.is_some() || self.done.checked_add(1) != Some(episode) {
            return Err(BarrierFault::WrongEpisode);
        }
        if self.arrivals[usize::from(from)].is_some() {
            return Err(BarrierFault::Twice);
        }
        Ok(())
    }

    // Whether all other nodes have arrived.
    fn is_last(&self, from: u8) -> bool
        requires { from < length self.now.last }
        ensures { (arrival : Arrival) → result
            ≡ list_all is_some (slice_set self.now.arrivals from (Some arrival)) }
    {
        for (node, place) in self.arrivals.iter().enumerate() {
            if node != usize::from(from) && place.is_none() {
                return false;
            }
        }
        true
    }

    // Keeps an arrival.
    fn keep(&mut self, from: u8, arrival: Arrival)
        requires from { from < length self.old.last }
        requires own { IsArrival (length self.old.last) from arrival }
        ensures { self.new ≡ with_arrival self.old from arrival }
    {
        let place = usize::from(from);
        self.last[place] = arrival.time.at(from);
        self.arrivals[place] = Some(arrival);
    }

    // All depart, the last of them with this own entry in its time.
    fn depart(&mut self, from: u8, entry: u32, collect: bool)
        requires from { from < length self.old.last }
        requires room { self.old.done + 1 < 2 ^ 32 }
        ensures { self.new ≡ record {
          done = self.old.done + 1;
          last = slice_set self.old.last from entry;
          arrivals = replicate (length self.old.last) None;
          cleans = if collect then Some (replicate (length self.old.last) Bool.false) else None;
        } }
    {
        let nodes = self.last.len() as u8;
        let place = usize::from(from);
        self.done += 1;
        self.last[place] = entry;
        self.arrivals = nobody(nodes);
        self.cleans = if collect {
            Some(no_cleans(nodes))
        } else {
            None
        };
    }
}

// No node has closed an interval.
fn nothing_known(nodes: u8) -> ArrayVec<u32, MOST_NODES>
    requires few { nodes ≤ 16 }
    ensures { result.items ≡ replicate nodes 0 }
{
    let mut last = ArrayVec::new();
    for _ in 0..nodes {
        last.push(0);
    }
    last
}

// Nobody has arrived.
fn nobody(nodes: u8) -> ArrayVec<Option<Arrival>, MOST_NODES>
    requires few { nodes ≤ 16 }
    ensures { result.items ≡ replicate nodes None }
{
    let mut arrivals = ArrayVec::new();
    for _ in 0..nodes {
        arrivals.push(None);
    }
    arrivals
}

// Nobody has sent a Clean.
fn no_cleans(nodes: u8) -> ArrayVec<bool, MOST_NODES>
    requires few { nodes ≤ 16 }
    ensures { result.items ≡ replicate nodes Bool.false }
{
    let mut cleans = ArrayVec::new();
    for _ in 0..nodes {
        cleans.push(false);
    }
    cleans
}

// Notes a node's Clean, and answers whether all have sent one now.
fn note_clean(cleans: &mut ArrayVec<bool, MOST_NODES>, from: u8) -> bool
    requires { from < length cleans.old.items }
    ensures noted { cleans.new.items ≡ slice_set cleans.old.items from Bool.true }
    ensures all { result ≡ list_all (λ clean. clean) (slice_set cleans.old.items from Bool.true) }
{
    cleans[usize::from(from)] = true;
    all_clean(cleans.as_slice())
}

// Whether all have sent a Clean.
fn all_clean(cleans: &[bool]) -> bool
    ensures { result ≡ list_all (λ clean. clean) cleans.now }
{
    cleans.iter().all(|clean| *clean)
}
