// States of the plain machine, without the code.

ghost use Rattle.std.specs.Prelude.{◌≡◌, IfOk, nat_le};
ghost use Rattle.std.specs.List.{list_all};
ghost use Rattle.lrc_exec.specs.Spots.{spot_stopped};

use crate::machine::Ask;
use crate::spot::{Flat, Spot};
use lrc_trace::act::Deed;
use std::alloc::{AllocError, Global};

/// A state of the plain machine, without the code.
#[derive(PartialEq, Eq, Hash, Drop)]
pub struct State {
    pub memory: Vec<u64>,
    pub holders: Vec<Option<usize>>,
    pub arrivals: Vec<u64>,
    pub spots: Vec<Spot>,
}

/// What a node can do now, and the number with which its statement continues.
#[derive(Clone, Copy)]
pub(crate) struct Step {
    pub(crate) deed: Deed,
    pub(crate) number: u64,
}

impl State {
    ghost use Rattle.std.specs.Prelude.{◌<◌, ◌≤◌, ◌-◌, ◌^◌, IfSome, IsSome, IsSomeAnd, Some, None, length, option_map, slice_index, if◌then◌else◌};
    ghost use Rattle.lrc_exec.specs.Plain.{plain_step, thread_in, with_thread, all_arrived};
    ghost use Rattle.lrc_exec.specs.Ask.{resumed, thread_departed, IsResumable};
    ghost use Rattle.lrc_exec.specs.Spots.{thread_at, IsFlat};
    ghost use Rattle.lrc_exec.specs.Places.{place_after};
    ghost use Rattle.lrc_exec.specs.States.{plain_at, IsStateOf, IsCopy, place_then, HasMoved, IsFirst, IsThere, deed_now, CompletesAt};

    /// Returns the state at the beginning of a program whose text begins at this place of the code. It fails only if
    /// memory runs out.
    pub fn start(alloc: Global, flat: &Flat, place: usize) -> Result<State, AllocError>
        requires { place ≤ length flat.now.code.now }
        ensures first { IfOk result (IsFirst flat.now place) }
        ensures state { IfOk result (IsStateOf flat.now) }
    {
        let memory = vec![in alloc; 0; flat.words as usize]?;
        let holders = vec![in alloc; None; flat.locks as usize]?;
        let arrivals = vec![in alloc; 0; flat.nodes as usize]?;
        let mut spots = Vec::new(alloc);
        for me in 0..flat.nodes {
            spots.push(Spot::begun(me, place))?;
        }
        Ok(State {
            memory,
            holders,
            arrivals,
            spots,
        })
    }

    /// Returns a copy of this state. It fails only if memory runs out.
    pub fn copy(&self, alloc: Global) -> Result<State, AllocError>
        ensures { IfOk result (λ state. IsCopy state self.now) }
    {
        Ok(State {
            memory: copied(alloc, &self.memory)?,
            holders: copied(alloc, &self.holders)?,
            arrivals: copied(alloc, &self.arrivals)?,
            spots: copied(alloc, &self.spots)?,
        })
    }

    /// Returns what a node can do now, or none if it cannot step.
    pub fn next_deed(&self, flat: &Flat, node: usize) -> Option<Deed>
        requires flat { IsFlat flat.now }
        requires state { IsStateOf flat.now self.now }
        ensures { result ≡ option_map (λ step. step.0)
            (plain_step (plain_at flat.now self.now) node) }
    {
        let step = self.next_step(flat, node)?;
        Some(step.deed)
    }

    /// Makes the act that a node can make now.
    pub fn make(&mut self, flat: &Flat, node: usize, deed: Deed)
        requires flat { IsFlat flat.now }
        requires state { IsStateOf flat.now self.old }
        requires can { option_map (λ step. step.0) (plain_step (plain_at flat.now self.old) node)
            ≡ Some deed }
        requires room { slice_index self.old.arrivals.items node < 2 ^ 64 - 1 }
        ensures made { plain_step (plain_at flat.now self.old) node
            ≡ Some (deed, plain_at flat.now self.new) }
        ensures moved { HasMoved self.old node (place_then flat.now deed) self.new }
        ensures state { IsStateOf flat.now self.new }
    {
        let number = flat.wish(&self.spots[node]).number;
        self.take(flat, node, Step { deed, number });
    }

    /// Returns what a node can do now, with the number with which its statement continues, or none if it cannot step.
    pub(crate) fn next_step(&self, flat: &Flat, node: usize) -> Option<Step>
        requires flat { IsFlat flat.now }
        requires state { IsStateOf flat.now self.now }
        ensures deed { option_map (λ step. step.deed) result
            ≡ option_map (λ step. step.0) (plain_step (plain_at flat.now self.now) node) }
        ensures number { IfSome result (λ step. CompletesAt
            (plain_at flat.now self.now) node step.number) }
    {
        let spot = self.spots.get(node)?;
        if spot.stopped {
            return None;
        }
        if spot.arrived {
            let deed = self.depart(flat, node)?;
            return Some(Step { deed, number: 0 });
        }
        let wish = flat.wish(spot);
        let deed = self.allowed(flat, wish.ask)?;
        Some(Step {
            deed,
            number: wish.number,
        })
    }

    /// Makes the act that a node can make now, given that number.
    pub(crate) fn take(&mut self, flat: &Flat, node: usize, step: Step)
        requires flat { IsFlat flat.now }
        requires state { IsStateOf flat.now self.old }
        requires can { option_map (λ step. step.0) (plain_step (plain_at flat.now self.old) node)
            ≡ Some step.deed }
        requires number { CompletesAt (plain_at flat.now self.old) node step.number }
        requires room { slice_index self.old.arrivals.items node < 2 ^ 64 - 1 }
        ensures made { plain_step (plain_at flat.now self.old) node
            ≡ Some (step.deed, plain_at flat.now self.new) }
        ensures moved { HasMoved self.old node (place_then flat.now step.deed) self.new }
        ensures state { IsStateOf flat.now self.new }
    {
        let number = step.number;
        match step.deed {
            Deed::Quiet | Deed::Print(_) => self.go_on(flat, node, number, 0, false),
            Deed::Read(_, value) => self.go_on(flat, node, number, value, false),
            Deed::Write(word, value) => {
                self.go_on(flat, node, number, 0, false);
                self.memory[word as usize] = value;
            }
            Deed::Acquire(lock) => {
                self.go_on(flat, node, number, 0, false);
                self.holders[lock as usize] = Some(node);
            }
            Deed::Release(lock) => {
                self.go_on(flat, node, number, 0, false);
                self.holders[lock as usize] = None;
            }
            Deed::Arrive => {
                self.go_on(flat, node, number, 0, true);
                self.arrivals[node] += 1;
            }
            Deed::Depart => self.leave(flat, node),
            Deed::Trap(_) | Deed::End => self.stop(flat, node),
        }
    }

    // What a node does that asks for this, if it can.
    fn allowed(&self, flat: &Flat, ask: Ask) -> Option<Deed>
        requires state { IsStateOf flat.now self.now }
        requires there { IsThere flat.now.words flat.now.locks ask }
        ensures { result ≡ deed_now (plain_at flat.now self.now) ask }
    {
        let _flat = flat;
        match ask {
            Ask::Read(word) => Some(ask.deed(self.memory[word as usize])),
            Ask::Acquire(lock) if self.holders[lock as usize].is_some() => None,
            _ => Some(ask.deed(0)),
        }
    }

    // A node's thread goes on, to a barrier or past it.
    fn go_on(&mut self, flat: &Flat, node: usize, number: u64, value: u64, arrived: bool)
        requires flat { IsFlat flat.now }
        requires state { IsStateOf flat.now self.old }
        requires resumable { IsSomeAnd (thread_in (plain_at flat.now self.old) node) IsResumable }
        requires number { CompletesAt (plain_at flat.now self.old) node number }
        ensures gone { plain_at flat.now self.new
            ≡ with_thread (plain_at flat.now self.old) node
            (option_map (resumed value arrived) (thread_in (plain_at flat.now self.old) node)) }
        ensures moved { HasMoved self.old node (λ spot.
            place_after (thread_at flat.now spot) flat.now.code.now spot.place) self.new }
        ensures state { IsStateOf flat.now self.new }
    {
        let spot = &mut self.spots[node];
        flat.complete(spot, number, value);
        spot.arrived = arrived;
    }

    // A node's thread goes on from a barrier.
    fn leave(&mut self, flat: &Flat, node: usize)
        requires state { IsStateOf flat.now self.old }
        requires there { IsSome (thread_in (plain_at flat.now self.old) node) }
        ensures left { plain_at flat.now self.new
            ≡ with_thread (plain_at flat.now self.old) node
            (option_map thread_departed (thread_in (plain_at flat.now self.old) node)) }
        ensures moved { HasMoved self.old node (λ spot. spot.place) self.new }
        ensures state { IsStateOf flat.now self.new }
    {
        self.spots[node].arrived = false;
    }

    // A node's thread stops for good.
    fn stop(&mut self, flat: &Flat, node: usize)
        requires state { IsStateOf flat.now self.old }
        requires there { IsSome (thread_in (plain_at flat.now self.old) node) }
        ensures ended { plain_at flat.now self.new
            ≡ with_thread (plain_at flat.now self.old) node None }
        ensures moved { HasMoved self.old node (λ _. 0) self.new }
        ensures state { IsStateOf flat.now self.new }
    {
        let me = self.spots[node].me;
        self.spots[node] = spot_stopped(me);
    }

    // A depart, where every node has arrived at least as often as this one.
    fn depart(&self, flat: &Flat, node: usize) -> Option<Deed>
        requires state { IsStateOf flat.now self.now }
        requires within { node < length self.now.spots.items }
        ensures { result ≡ (if all_arrived
            (plain_at flat.now self.now) node then Some Deed.Depart else None) }
    {
        if all_at_least(&self.arrivals, self.arrivals[node]) {
            Some(Deed::Depart)
        } else {
            None
        }
    }
}

// A node that has stopped: it keeps nothing but its number, so that states do not differ by what it knew.
fn spot_stopped(me: u8) -> Spot
    ensures { result ≡ spot_stopped me }
{
    Spot {
        me,
        place: 0,
        privates: [0; 32],
        held: [false; 64],
        arrived: false,
        stopped: true,
    }
}

// Whether no count is lower.
fn all_at_least(counts: &[u64], least: u64) -> bool
    ensures { result ≡ list_all (λ count. nat_le least count) counts.now }
{
    counts.iter().all(|count| least <= *count)
}

/// Returns a list of the same items. It fails only if memory runs out.
pub fn copied<T: Copy>(alloc: Global, items: &[T]) -> Result<Vec<T>, AllocError>
    ensures { IfOk result (λ copy. copy.items ≡ items.now) }
{
    let mut copy = Vec::new(alloc);
    copy.extend_from_slice(items)?;
    Ok(copy)
}
