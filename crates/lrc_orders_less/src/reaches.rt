// What is known of pairs of threads.

ghost use Rattle.std.specs.Prelude.{◌≡◌, ◌<◌, Some, length, slice_get};
ghost use Rattle.lrc_orders_table.specs.Tables.{next_of};
ghost use Rattle.lrc_orders_less.specs.Clash.{clash_by};
ghost use Rattle.lrc_orders_less.specs.Reaches.{IsThread};

use crate::clash::{clash_by, is_contended_next};
use indexmap::IndexMap;
use lrc_exec::spot::{Flat, Spot};
use lrc_orders_away::conflict::may_conflict;
use lrc_orders_reach::ahead::Follower;
use lrc_orders_reach::follow::follow;
use lrc_orders_reach::standing::Standing;
use lrc_orders_table::known::Means;
use lrc_orders_table::rows::Row;
use lrc_orders_table::table::Table;
use lrc_trace::act::Deed;
use std::alloc::{AllocError, Global};

/// A thread that is about to act, and another node's thread, by their numbers.
#[derive(Clone, Copy, PartialEq, Eq, Hash)]
pub struct Pair {
    pub acting: u32,
    pub other: u32,
}

/// A thread, by its number, and the locks that it cannot acquire.
#[derive(Clone, Copy, PartialEq, Eq, Hash)]
pub struct Text {
    pub thread: u32,
    pub blocked: [bool; 64],
}

// After so many states without a known undisputed act, hardly any is looked at: to follow texts would cost more than it
// saves. (Peterson's algorithm: 40,000 instructions for each of its first states, where a state itself takes 2,000.)
const MOST_VAIN: u64 = 500;

// A known undisputed act makes up for so many states without one.
const WORTH: u64 = 16;

// One state in so many is looked at even then, since behind a barrier others may have undisputed acts.
const SELDOM: u64 = 256;

/// Of which pairs of threads it was asked whether the other one comes to an act that conflicts with the next one of the
/// first, and of which it is known that it does not; to what the texts of threads were followed (none: one was given
/// up); and how many states had no known undisputed act lately: an act that was found makes up for some of them.
#[derive(Drop)]
pub struct Reaches {
    pub pairs: IndexMap<Pair, bool>,
    pub texts: IndexMap<Text, Option<Vec<Standing>>>,
    pub vain: u64,
}

impl Reaches {
    ghost use Rattle.std.specs.Prelude.{◌≡◌, ◌<◌, ◌++◌, ◌∷◌, [], IfOk, IfSome, List, None, OnOk, Some, slice_get, true};
    ghost use Rattle.indexmap.specs.IndexMap.{get};
    ghost use Rattle.lrc_exec.specs.Spots.{IsFlat};
    ghost use Rattle.lrc_orders_away.specs.Undisputed.{KeepsAway};
    ghost use Rattle.lrc_orders_less.specs.contracts.reaches.PairPartialEq.TheImpl.{eq-value as pair_eq};
    ghost use Rattle.lrc_orders_less.specs.contracts.reaches.TextPartialEq.TheImpl.{eq-value as text_eq};
    ghost use Rattle.lrc_exec.specs.declared.spot.Flat.{Flat as TheFlat};
    ghost use Rattle.lrc_exec.specs.declared.spot.Spot.{Spot as TheSpot};
    ghost use Rattle.lrc_orders.specs.declared.noted.Noted.{Noted as Key};
    ghost use Rattle.lrc_orders_table.specs.Tables.{AreMeans, IsKnown, IsRowOf, IsTable};
    ghost use Rattle.lrc_orders_less.specs.Reaches.{AreReaches, AreTexts, HasText, IsAlwaysUndisputed, IsClearPair, IsThread, StaysClear};

    /// Nothing is known yet.
    pub fn new(alloc: Global) -> Reaches
        ensures { (flat : TheFlat) (threads : List TheSpot) → AreReaches flat threads result }
    {
        Reaches {
            pairs: IndexMap::new(alloc),
            texts: IndexMap::new(alloc),
            vain: 0,
        }
    }

    /// Returns the lowest node whose next act is a read, a write or an acquire that is known to be undisputed, if the
    /// node makes it: the text of each other node, followed up to its next barriers, comes to no act that conflicts. Where
    /// hardly any was found lately, most states are not looked at. It fails if memory runs out.
    pub fn undisputed_node(
        &mut self,
        alloc: Global,
        means: &Means<'_>,
        table: &Table,
        row: &Row,
    ) -> Result<Option<usize>, AllocError>
        requires means { AreMeans means.now }
        requires table { IsTable means.now table.now }
        requires row { IsKnown table.now row.now }
        requires reaches { AreReaches means.now.flat table.now.rows.threads.keys self.old }
        ensures reaches { OnOk result (AreReaches means.now.flat table.now.rows.threads.keys self.new) }
        ensures within { IfOk result (λ found. IfSome found (λ node. node < table.now.rows.nodes)) }
        ensures undisputed { IfOk result (λ found. IfSome found (λ node. (key : Key)
            → IsRowOf means.now table.now row.now key
            → IsAlwaysUndisputed means.now.flat key.state node)) }
    {
        self.vain = self.vain.saturating_add(1);
        if is_left_out(self.vain) {
            return Ok(None);
        }
        let found = self.known_node(alloc, means, table, row)?;
        self.vain = vain_then(self.vain, found.is_some());
        Ok(found)
    }

    // The same, where the state is looked at.
    fn known_node(
        &mut self,
        alloc: Global,
        means: &Means<'_>,
        table: &Table,
        row: &Row,
    ) -> Result<Option<usize>, AllocError>
        requires means { AreMeans means.now }
        requires table { IsTable means.now table.now }
        requires row { IsKnown table.now row.now }
        requires reaches { AreReaches means.now.flat table.now.rows.threads.keys self.old }
        ensures reaches { OnOk result (AreReaches means.now.flat table.now.rows.threads.keys self.new) }
        ensures within { IfOk result (λ found. IfSome found (λ node. node < table.now.rows.nodes)) }
        ensures undisputed { IfOk result (λ found. IfSome found (λ node. (key : Key)
            → IsRowOf means.now table.now row.now key
            → IsAlwaysUndisputed means.now.flat key.state node)) }
    {
        for node in 0..table.rows.nodes {
            let known = self.is_undisputed(alloc, means, table, row, node)?;
            if known {
                return Ok(Some(node));
            }
        }
        Ok(None)
    }

    // Whether the next act of a node is a read, a write or an acquire that is known to be undisputed.
    fn is_undisputed(
        &mut self,
        alloc: Global,
        means: &Means<'_>,
        table: &Table,
        row: &Row,
        node: usize,
    ) -> Result<bool, AllocError>
        requires means { AreMeans means.now }
        requires table { IsTable means.now table.now }
        requires row { IsKnown table.now row.now }
        requires reaches { AreReaches means.now.flat table.now.rows.threads.keys self.old }
        requires node { node < table.now.rows.nodes }
        ensures reaches { OnOk result (AreReaches means.now.flat table.now.rows.threads.keys self.new) }
        ensures undisputed { IfOk result (λ known. known ≡ true → (key : Key)
            → IsRowOf means.now table.now row.now key
            → IsAlwaysUndisputed means.now.flat key.state node) }
    {
        if !is_contended_next(table.next(row, node)) {
            return Ok(false);
        }
        for other in 0..table.rows.nodes {
            let clear = self.stays_clear(alloc, means, table, row, node, other)?;
            if !clear {
                return Ok(false);
            }
        }
        Ok(true)
    }

    // Whether it is known that another node comes to no act that conflicts with a node's next one.
    fn stays_clear(
        &mut self,
        alloc: Global,
        means: &Means<'_>,
        table: &Table,
        row: &Row,
        node: usize,
        other: usize,
    ) -> Result<bool, AllocError>
        requires means { AreMeans means.now }
        requires table { IsTable means.now table.now }
        requires row { IsKnown table.now row.now }
        requires reaches { AreReaches means.now.flat table.now.rows.threads.keys self.old }
        requires node { node < table.now.rows.nodes }
        requires other { other < table.now.rows.nodes }
        ensures reaches { OnOk result (AreReaches means.now.flat table.now.rows.threads.keys self.new) }
        ensures clear { IfOk result (λ known. known ≡ true → (key : Key)
            → IsRowOf means.now table.now row.now key
            → StaysClear means.now.flat key.state node other) }
    {
        if other == node {
            return Ok(true);
        }
        let pair = Pair {
            acting: row.threads[node],
            other: row.threads[other],
        };
        self.keeps_clear(alloc, means, table, pair)
    }

    // The same of two threads.
    fn keeps_clear(
        &mut self,
        alloc: Global,
        means: &Means<'_>,
        table: &Table,
        pair: Pair,
    ) -> Result<bool, AllocError>
        requires means { AreMeans means.now }
        requires table { IsTable means.now table.now }
        requires reaches { AreReaches means.now.flat table.now.rows.threads.keys self.old }
        requires acting { IsThread table.now pair.acting }
        requires other { IsThread table.now pair.other }
        ensures reaches { OnOk result (AreReaches means.now.flat table.now.rows.threads.keys self.new) }
        ensures clear { IfOk result (λ known. known ≡ true
            → IsClearPair means.now.flat table.now.rows.threads.keys pair) }
    {
        if let Some(place) = self.pairs.get_index_of(&pair) {
            return Ok(self.pairs[place]);
        }
        let clear = self.is_clear_pair(alloc, means, table, pair)?;
        self.keep_pair(pair, clear)?;
        Ok(clear)
    }

    // Keeps what is known of a pair.
    fn keep_pair(&mut self, pair: Pair, clear: bool) -> Result<(), AllocError>
        requires { get pair_eq.it self.old.pairs pair ≡ None }
        ensures entries { OnOk result (self.new.pairs.entries ≡ self.old.pairs.entries ++ (pair, clear) ∷ []) }
        ensures others { self.new.texts ≡ self.old.texts }
    {
        self.pairs.insert(pair, clear)?;
        Ok(())
    }

    // Follows the text of the other thread of a pair, or finds what it was followed to: whether that comes to no act that
    // conflicts.
    fn is_clear_pair(
        &mut self,
        alloc: Global,
        means: &Means<'_>,
        table: &Table,
        pair: Pair,
    ) -> Result<bool, AllocError>
        requires means { AreMeans means.now }
        requires table { IsTable means.now table.now }
        requires texts { AreTexts means.now.flat table.now.rows.threads.keys self.old.texts.entries }
        requires acting { IsThread table.now pair.acting }
        requires other { IsThread table.now pair.other }
        ensures pairs { self.new.pairs ≡ self.old.pairs }
        ensures texts { OnOk result (AreTexts means.now.flat table.now.rows.threads.keys self.new.texts.entries) }
        ensures clear { IfOk result (λ known. known ≡ true
            → IsClearPair means.now.flat table.now.rows.threads.keys pair) }
    {
        let acting = thread_of(table, pair.acting);
        let other = thread_of(table, pair.other);
        let deed = clash_of(table, pair.acting);
        let blocked = acting.held;
        let text = Text {
            thread: pair.other,
            blocked,
        };
        let place = self.text(alloc, &means.flat, text, &other)?;
        Ok(self.is_clear(&means.flat, place, text, &other, deed))
    }

    // The place of what the text of a thread was followed to.
    fn text(
        &mut self,
        alloc: Global,
        flat: &Flat,
        text: Text,
        spot: &Spot,
    ) -> Result<usize, AllocError>
        requires flat { IsFlat flat.now }
        ensures pairs { self.new.pairs ≡ self.old.pairs }
        ensures texts { OnOk result ((threads : List TheSpot) → slice_get threads text.thread ≡ Some spot.now
            → AreTexts flat.now threads self.old.texts.entries
            → AreTexts flat.now threads self.new.texts.entries) }
        ensures there { IfOk result (λ place. HasText self.new.texts.entries text place) }
    {
        if let Some(place) = self.texts.get_index_of(&text) {
            return Ok(place);
        }
        let follower = Follower {
            flat: *flat,
            me: spot.me,
            blocked: &text.blocked,
        };
        let found = follow(alloc, &follower, spot)?;
        self.keep_text(text, found)
    }

    // Keeps what the text of a thread was followed to: its place.
    fn keep_text(&mut self, text: Text, found: Option<Vec<Standing>>) -> Result<usize, AllocError>
        requires { get text_eq.it self.old.texts text ≡ None }
        ensures pairs { self.new.pairs ≡ self.old.pairs }
        ensures entries { OnOk result (self.new.texts.entries ≡ self.old.texts.entries ++ (text, found) ∷ []) }
        ensures there { IfOk result (λ place. HasText self.new.texts.entries text place) }
    {
        let place = self.texts.len();
        self.texts.insert(text, found)?;
        Ok(place)
    }

    // Whether what the text of a thread was followed to comes to no act that conflicts with a deed.
    fn is_clear(&self, flat: &Flat, place: usize, text: Text, spot: &Spot, deed: Deed) -> bool
        requires flat { IsFlat flat.now }
        requires there { HasText self.now.texts.entries text place }
        ensures { result ≡ true → (threads : List TheSpot) → slice_get threads text.thread ≡ Some spot.now
            → AreTexts flat.now threads self.now.texts.entries
            → KeepsAway flat.now spot.now text.blocked deed }
    {
        let follower = Follower {
            flat: *flat,
            me: spot.me,
            blocked: &text.blocked,
        };
        match &self.texts[place] {
            Some(all) => !may_conflict(&follower, all, deed),
            None => false,
        }
    }
}

// Whether a state is left out, where so many lately had no known undisputed act, this one counted.
fn is_left_out(vain: u64) -> bool {
    vain > MOST_VAIN && vain % SELDOM != 0
}

// How many lately had none, once this one was looked at.
fn vain_then(vain: u64, found: bool) -> u64 {
    if found {
        vain.min(MOST_VAIN).saturating_sub(WORTH)
    } else {
        vain
    }
}

// The thread of a number.
fn thread_of(table: &Table, number: u32) -> Spot
    requires { IsThread table.now number }
    ensures { slice_get table.now.rows.threads.keys number ≡ Some result }
{
    table.rows.threads[number as usize]
}

// A deed that conflicts with what the thread of a number conflicts with next.
fn clash_of(table: &Table, number: u32) -> Deed
    requires { number < length table.now.nexts.items }
    ensures { result ≡ clash_by (next_of table.now number) }
{
    clash_by(table.nexts[number as usize])
}
