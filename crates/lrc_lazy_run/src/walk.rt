// The search from state to state by steps, and where that finds nothing by single acts.

ghost use Rattle.std.specs.Prelude.{◌<◌, IfSome, length};

use crate::along::free_act;
use crate::sought::Sought;
use crate::ways::Ways;
use lrc_orders::search::ExploreFault;
use lrc_trace::act::{Act, Deed};
use std::alloc::{AllocError, Global};

impl Ways {
    ghost use Rattle.std.specs.Prelude.{◌<◌, ℕ, IfErr, IfOk, OnOk, length};
    ghost use Rattle.lrc_orders.specs.Kept.{Grows};
    ghost use Rattle.lrc_lazy_run.specs.Ways.{AreWays, CanMakeAt, CanMakeIfAny, HasAllStepsAt, IsEndFor, IsEndIfFound, MayFail};

    /// Returns the place of a state at which no node can act and that has these notes, or nothing if no lazy run has
    /// them. It is the first such state to which steps lead, which is tested and not proved. It gives up with `TooMany`
    /// if there are more states than the task allows, and fails if memory runs out.
    pub fn find(
        &mut self,
        alloc: Global,
        sought: &Sought<'_>,
        notes: &[Act],
    ) -> Result<Option<usize>, ExploreFault>
        requires ways { AreWays sought.now self.old }
        requires none { length self.old.settled.items < length self.old.states.keys }
        ensures ways { OnOk result (AreWays sought.now self.new) }
        ensures found { IfOk result (IsEndFor sought.now self.new.states.keys notes.now) }
        ensures fails { IfErr result (MayFail sought.now) }
    {
        match self.find_by_steps(alloc, sought, notes)? {
            Some(place) => Ok(Some(place)),
            None => self.find_by_acts(alloc, sought, notes),
        }
    }

    // The same of the states to which steps lead.
    fn find_by_steps(
        &mut self,
        alloc: Global,
        sought: &Sought<'_>,
        notes: &[Act],
    ) -> Result<Option<usize>, ExploreFault>
        requires ways { AreWays sought.now self.old }
        requires none { length self.old.settled.items < length self.old.states.keys }
        ensures ways { OnOk result (AreWays sought.now self.new) }
        ensures found { IfOk result (IsEndIfFound sought.now self.new.states.keys notes.now) }
        ensures fails { IfErr result (MayFail sought.now) }
    {
        self.settle(alloc, sought, 0)?;
        let mut next = 0;
        while next < self.settled.len() {
            let place = self.settled[next];
            if self.is_end_with(alloc, sought, place, notes)? {
                return Ok(Some(place));
            }
            self.expand(alloc, sought, place)?;
            next += 1;
        }
        Ok(None)
    }

    // The same of all states.
    fn find_by_acts(
        &mut self,
        alloc: Global,
        sought: &Sought<'_>,
        notes: &[Act],
    ) -> Result<Option<usize>, ExploreFault>
        requires ways { AreWays sought.now self.old }
        ensures ways { OnOk result (AreWays sought.now self.new) }
        ensures found { IfOk result (IsEndFor sought.now self.new.states.keys notes.now) }
        ensures fails { IfErr result (MayFail sought.now) }
    {
        let mut place = 0;
        while place < self.states.len() {
            if self.is_end_with(alloc, sought, place, notes)? {
                return Ok(Some(place));
            }
            self.add_all(alloc, sought, place)?;
            place += 1;
        }
        Ok(None)
    }

    // Adds all states to which an act leads from one of them.
    fn add_all(
        &mut self,
        alloc: Global,
        sought: &Sought<'_>,
        place: usize,
    ) -> Result<(), ExploreFault>
        requires ways { AreWays sought.now self.old }
        requires within { place < length self.old.states.keys }
        ensures ways { OnOk result (AreWays sought.now self.new) }
        ensures grows { OnOk result (Grows self.old.states.keys self.new.states.keys) }
        ensures all { OnOk result ((node : ℕ) → HasAllStepsAt sought.now.flat self.new.states.keys
            place node) }
        ensures fails { IfErr result (MayFail sought.now) }
    {
        for node in 0..sought.flat.nodes as usize {
            self.add_of(alloc, sought, place, node)?;
        }
        Ok(())
    }

    // Adds those to which an act of a node leads.
    fn add_of(
        &mut self,
        alloc: Global,
        sought: &Sought<'_>,
        place: usize,
        node: usize,
    ) -> Result<(), ExploreFault>
        requires ways { AreWays sought.now self.old }
        requires within { place < length self.old.states.keys }
        ensures ways { OnOk result (AreWays sought.now self.new) }
        ensures grows { OnOk result (Grows self.old.states.keys self.new.states.keys) }
        ensures all { OnOk result (HasAllStepsAt sought.now.flat self.new.states.keys place node) }
        ensures fails { IfErr result (MayFail sought.now) }
    {
        let deeds = self.deeds_at(alloc, sought, place, node)?;
        for index in 0..deeds.len() {
            let _added = self.step(alloc, sought, place, node, deeds[index])?;
        }
        Ok(())
    }

    // From a state on, the lowest node that can make a free act makes it, as long as there is one and each state that is
    // kept on the way is new. Steps lead on from where that ends.
    fn settle(
        &mut self,
        alloc: Global,
        sought: &Sought<'_>,
        place: usize,
    ) -> Result<(), ExploreFault>
        requires ways { AreWays sought.now self.old }
        requires within { place < length self.old.states.keys }
        requires room { length self.old.settled.items < length self.old.states.keys }
        ensures ways { OnOk result (AreWays sought.now self.new) }
        ensures grows { OnOk result (Grows self.old.states.keys self.new.states.keys) }
        ensures fails { IfErr result (MayFail sought.now) }
    {
        let mut at = place;
        while let Some((node, deed)) = self.free_act(alloc, sought, at)? {
            match self.stride(alloc, sought, at, node, deed)? {
                Some(next) => at = next,
                None => return Ok(()),
            }
        }
        Ok(self.note_settled(sought, at)?)
    }

    // The free act of the lowest node that can make one at a state.
    fn free_act(
        &self,
        alloc: Global,
        sought: &Sought<'_>,
        place: usize,
    ) -> Result<Option<(usize, Deed)>, AllocError>
        requires ways { AreWays sought.now self.now }
        requires within { place < length self.now.states.keys }
        ensures { IfOk result (CanMakeIfAny sought.now.flat self.now.states.keys place) }
    {
        free_act(alloc, &sought.flat, &self.states.as_slice()[place])
    }

    // Adds the states to which steps lead from one of them.
    fn expand(
        &mut self,
        alloc: Global,
        sought: &Sought<'_>,
        place: usize,
    ) -> Result<(), ExploreFault>
        requires ways { AreWays sought.now self.old }
        requires within { place < length self.old.states.keys }
        ensures ways { OnOk result (AreWays sought.now self.new) }
        ensures fails { IfErr result (MayFail sought.now) }
    {
        match self.reader(alloc, sought, place)? {
            Some(node) => self.read_each(alloc, sought, place, node),
            None => self.go_on(alloc, sought, place),
        }
    }

    // The lowest node that is about to read one of several values.
    fn reader(
        &self,
        alloc: Global,
        sought: &Sought<'_>,
        place: usize,
    ) -> Result<Option<usize>, AllocError>
        requires ways { AreWays sought.now self.now }
        requires within { place < length self.now.states.keys }
    {
        for node in 0..sought.flat.nodes as usize {
            if self.deeds_at(alloc, sought, place, node)?.len() > 1 {
                return Ok(Some(node));
            }
        }
        Ok(None)
    }

    // A step for each value that a node may read, ascending.
    fn read_each(
        &mut self,
        alloc: Global,
        sought: &Sought<'_>,
        place: usize,
        node: usize,
    ) -> Result<(), ExploreFault>
        requires ways { AreWays sought.now self.old }
        requires within { place < length self.old.states.keys }
        ensures ways { OnOk result (AreWays sought.now self.new) }
        ensures fails { IfErr result (MayFail sought.now) }
    {
        let deeds = self.deeds_at(alloc, sought, place, node)?;
        let mut last = None;
        for _read in 0..deeds.len() {
            let Some(next) = least_above(&deeds, last) else {
                break;
            };
            self.take(alloc, sought, place, node, deeds[next])?;
            last = Some(value_of(deeds[next]));
        }
        Ok(())
    }

    // A step for each node that can acquire, or one of all nodes that depart.
    fn go_on(
        &mut self,
        alloc: Global,
        sought: &Sought<'_>,
        place: usize,
    ) -> Result<(), ExploreFault>
        requires ways { AreWays sought.now self.old }
        requires within { place < length self.old.states.keys }
        ensures ways { OnOk result (AreWays sought.now self.new) }
        ensures fails { IfErr result (MayFail sought.now) }
    {
        for node in 0..sought.flat.nodes as usize {
            let deeds = self.deeds_at(alloc, sought, place, node)?;
            if deeds.is_empty() {
                continue;
            }
            match deeds[0] {
                Deed::Depart => return self.depart_all(alloc, sought, place),
                deed => self.take(alloc, sought, place, node, deed)?,
            }
        }
        Ok(())
    }

    // The step of a node that does this.
    fn take(
        &mut self,
        alloc: Global,
        sought: &Sought<'_>,
        place: usize,
        node: usize,
        deed: Deed,
    ) -> Result<(), ExploreFault>
        requires ways { AreWays sought.now self.old }
        requires within { place < length self.old.states.keys }
        requires can { CanMakeAt sought.now.flat self.old.states.keys place node deed }
        ensures ways { OnOk result (AreWays sought.now self.new) }
        ensures grows { OnOk result (Grows self.old.states.keys self.new.states.keys) }
        ensures fails { IfErr result (MayFail sought.now) }
    {
        match self.stride(alloc, sought, place, node, deed)? {
            Some(next) => self.settle(alloc, sought, next),
            None => Ok(()),
        }
    }

    // The step of all nodes that depart.
    fn depart_all(
        &mut self,
        alloc: Global,
        sought: &Sought<'_>,
        place: usize,
    ) -> Result<(), ExploreFault>
        requires ways { AreWays sought.now self.old }
        requires within { place < length self.old.states.keys }
        ensures ways { OnOk result (AreWays sought.now self.new) }
        ensures fails { IfErr result (MayFail sought.now) }
    {
        match self.departed(alloc, sought, place)? {
            Some(at) => self.settle(alloc, sought, at),
            None => Ok(()),
        }
    }

    // The place of the state after all nodes have departed, where it is new.
    fn departed(
        &mut self,
        alloc: Global,
        sought: &Sought<'_>,
        place: usize,
    ) -> Result<Option<usize>, ExploreFault>
        requires ways { AreWays sought.now self.old }
        requires within { place < length self.old.states.keys }
        ensures ways { OnOk result (AreWays sought.now self.new) }
        ensures found { IfOk result (λ at. IfSome at (λ at. (at < length self.new.states.keys)
            × (length self.new.settled.items < length self.new.states.keys))) }
        ensures fails { IfErr result (MayFail sought.now) }
    {
        let mut at = None;
        for node in 0..sought.flat.nodes as usize {
            let from = at.unwrap_or(place);
            let deeds = self.deeds_at(alloc, sought, from, node)?;
            if deeds.is_empty() {
                return Ok(None);
            }
            at = self.step(alloc, sought, from, node, deeds[0])?;
            if at.is_none() {
                return Ok(None);
            }
        }
        Ok(at)
    }
}

// The value that a read gives.
fn value_of(deed: Deed) -> u64 {
    match deed {
        Deed::Read(_, value) => value,
        _ => 0,
    }
}

// The place of the read with the least value above another one, or of all.
fn least_above(deeds: &[Deed], last: Option<u64>) -> Option<usize>
    ensures { IfSome result (λ place. place < length deeds.now) }
{
    let mut found: Option<usize> = None;
    for place in 0..deeds.len() {
        if is_nearer(deeds, last, found, place) {
            found = Some(place);
        }
    }
    found
}

// Whether the value of the read at a place is above one, if there is one, and below that of the read that was found, if
// one was.
fn is_nearer(deeds: &[Deed], last: Option<u64>, found: Option<usize>, place: usize) -> bool
    requires found { IfSome found (λ found. found < length deeds.now) }
    requires within { place < length deeds.now }
{
    let value = value_of(deeds[place]);
    let is_above = match last {
        Some(last) => last < value,
        None => true,
    };
    let is_below = match found {
        Some(found) => value < value_of(deeds[found]),
        None => true,
    };
    is_above && is_below
}
