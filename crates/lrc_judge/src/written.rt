// The writes of a run, and which of them happen before a position.
ghost use Rattle.std.specs.Prelude.{◌≡◌, ℕ, ◌<◌, ◌≤◌, ◌↔◌, List, All, IfOk, IsTrue, length};
ghost use Rattle.lrc_judge.specs.declared.TheConstants.{NODES};

use crate::NODES;
use crate::entries::{Told, entries_of};
use crate::guesses::Guesses;
use crate::lanes::{Entry, Lane, last_before};
use crate::latest::{later_of, value_at};
use crate::order::{Order, happens_before};
use lrc_trace::act::Act;
use std::alloc::{AllocError, Global};

/// The happens-before order of a run, and its writes by word and by value.
#[derive(Drop)]
pub struct Written {
    order: Order,
    by_word: Vec<Entry>,
    by_value: Vec<Entry>,
}

impl Written {
    ghost use Rattle.lrc_trace.specs.declared.act.Act.{Act};
    ghost use Rattle.lrc_trace.specs.Reading.{AreOrdered, MayRead};
    ghost use Rattle.lrc_judge.specs.Written.{AllLead, AreFlagsOf, AreReady, IsLatestBelow, IsValueBelow, IsWrittenOf};

    /// Returns the order and the writes of a run. It fails only if memory runs out.
    pub fn of(alloc: Global, acts: &[Act]) -> Result<Written, AllocError>
        requires { All (λ act. act.node < NODES) acts.now }
        ensures { IfOk result (IsWrittenOf acts.now) }
    {
        let order = happens_before(alloc, acts)?;
        let by_word = entries_of(alloc, acts, Told::EachWrite)?;
        let by_value = entries_of(alloc, acts, Told::EachValue)?;
        Ok(Written {
            order,
            by_word,
            by_value,
        })
    }

    // The last write to the word that happens before the position.
    fn latest(&self, guesses: &mut Guesses, word: u32, position: usize) -> Option<usize>
        requires { AreReady self.now }
        ensures { IsLatestBelow self.now word NODES position result }
    {
        let mut latest = None;
        for node in 0..NODES {
            let lane = Lane {
                word,
                value: 0,
                node: node as u8,
            };
            let mut guess = guesses.beyond[node];
            let found = last_before(
                self.by_word.as_slice(),
                &self.order,
                lane,
                position,
                &mut guess,
            );
            guesses.beyond[node] = guess;
            latest = later_of(latest, found);
        }
        latest
    }

    // Whether each write to the word that happens before the position is this one, or happens before it.
    fn leads(&self, guesses: &Guesses, word: u32, position: usize, latest: usize) -> bool
        requires { AreReady self.now }
        ensures { (run : List Act) → IsWrittenOf run self.now → IsTrue result
            ↔ AllLead self.now word NODES position latest }
    {
        for node in 0..NODES {
            let lane = Lane {
                word,
                value: 0,
                node: node as u8,
            };
            let mut guess = guesses.beyond[node];
            if let Some(found) = last_before(
                self.by_word.as_slice(),
                &self.order,
                lane,
                position,
                &mut guess,
            ) {
                if found != latest && !self.order.is_before(found, latest) {
                    return false;
                }
            }
        }
        true
    }

    /// Returns whether any two of the writes to the word that happen before the position are ordered. For each earlier
    /// write to the word, `ordered` tells the same about the writes before it. The guesses serve the next search.
    pub fn are_ordered(
        &self,
        guesses: &mut Guesses,
        ordered: &[bool],
        word: u32,
        position: usize,
    ) -> bool
        requires ready { AreReady self.now }
        requires long { position ≤ length ordered.now }
        ensures { (run : List Act) → IsWrittenOf run self.now → All (λ act. act.node < NODES) run
            → AreFlagsOf run word position ordered.now
            → IsTrue result ↔ AreOrdered run position word }
    {
        match self.latest(guesses, word, position) {
            Some(latest) => ordered[latest] && self.leads(guesses, word, position, latest),
            None => true,
        }
    }

    // Whether the value is written to the word by a write that happens before the position.
    fn has(&self, word: u32, value: u64, position: usize) -> bool
        requires { AreReady self.now }
        ensures { IsTrue result ↔ IsValueBelow self.now word value NODES position }
    {
        let mut guess = usize::MAX;
        for node in 0..NODES {
            let lane = Lane {
                word,
                value,
                node: node as u8,
            };
            let found = last_before(
                self.by_value.as_slice(),
                &self.order,
                lane,
                position,
                &mut guess,
            );
            if let Some(_) = found {
                return true;
            }
        }
        false
    }

    /// Returns whether the read of the word at the position may give the value.
    pub fn allows(
        &self,
        guesses: &mut Guesses,
        acts: &[Act],
        position: usize,
        word: u32,
        value: u64,
        is_ordered: bool,
    ) -> bool
        requires written { IsWrittenOf acts.now self.now }
        requires nodes { All (λ act. act.node < NODES) acts.now }
        requires within { position < length acts.now }
        requires flag { IsTrue is_ordered ↔ AreOrdered acts.now position word }
        ensures { IsTrue result ↔ MayRead acts.now position word value }
    {
        if !is_ordered {
            return value == 0 || self.has(word, value, position);
        }
        match self.latest(guesses, word, position) {
            Some(latest) => value == value_at(acts, latest),
            None => value == 0,
        }
    }
}
