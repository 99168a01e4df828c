// What is seen at a row.

ghost use Rattle.std.specs.Prelude.{◌≡◌, ◌↔◌, ◌||◌, IsTrue};
ghost use Rattle.lrc_orders_table.specs.Shared.{access_by, is_stopped, is_waiting};

use crate::next::Next;
use crate::rows::Row;
use crate::table::Table;

impl Table {
    ghost use Rattle.std.specs.Prelude.{◌≡◌, ℕ, ◌<◌, ◌↔◌, IsTrue, List, MatchOption, Option, Some, length, slice_get};
    ghost use Rattle.lrc_exec.specs.declared.spot.Spot.{Spot as TheSpot};
    ghost use Rattle.lrc_exec.specs.States.{plain_at};
    ghost use Rattle.lrc_orders.specs.declared.noted.Noted.{Noted as Key};
    ghost use Rattle.lrc_orders.specs.Meeting.{HasNoPartner, IsCalm, IsLeastPair, IsPartner, Meet};
    ghost use Rattle.lrc_orders.specs.Stuck.{IsAtRest, IsStuck, IsUnfinished};
    ghost use Rattle.lrc_orders_laws.specs.Steps.{AllWait};
    ghost use Rattle.lrc_orders_memory.specs.Sharing.{IsSharedAt};
    ghost use Rattle.lrc_orders_table.specs.Nexts.{next_in};
    ghost use Rattle.lrc_orders_table.specs.declared.known.Means.{Means as TheMeans};
    ghost use Rattle.lrc_orders_table.specs.Shared.{can_act};
    ghost use Rattle.lrc_orders_table.specs.Tables.{IsKnown, IsRowOf, IsTable, next_at};

    /// Returns what a node does next.
    pub fn next(&self, row: &Row, node: usize) -> Next
        requires row { IsKnown self.now row.now }
        requires node { node < self.now.rows.nodes }
        ensures at { result ≡ next_at self.now row.now node }
        ensures means { (means : TheMeans) (key : Key) (spot : TheSpot) → IsTable means self.now
            → IsRowOf means self.now row.now key → slice_get key.state.spots.items node ≡ Some spot
            → result ≡ next_in means.flat spot }
    {
        self.nexts[row.threads[node] as usize]
    }

    /// Returns the least two nodes that meet, the lower one first.
    pub fn meeting(&self, row: &Row) -> Option<(usize, usize)>
        requires { IsKnown self.now row.now }
        ensures { (means : TheMeans) (key : Key) → IsTable means self.now
            → IsRowOf means self.now row.now key
            → MatchOption result (IsCalm (plain_at means.flat key.state))
            (λ pair. (pair.0 < pair.1) × Meet (plain_at means.flat key.state) pair.0 pair.1
            × IsLeastPair (plain_at means.flat key.state) pair.0 pair.1) }
    {
        for p in 0..self.rows.nodes {
            let Some((word, writes)) = access_of(self.next(row, p)) else {
                continue;
            };
            if let Some(q) = self.partner(row, p, word, writes) {
                return Some((p, q));
            }
        }
        None
    }

    // Returns the lowest node above `p` that accesses the word next, if one of the two accesses is a write.
    fn partner(&self, row: &Row, p: usize, word: u32, writes: bool) -> Option<usize>
        requires row { IsKnown self.now row.now }
        requires node { p < self.now.rows.nodes }
        ensures { (means : TheMeans) (key : Key) → IsTable means self.now
            → IsRowOf means self.now row.now key
            → MatchOption result (HasNoPartner (plain_at means.flat key.state) p
            (length key.state.spots.items) word writes)
            (λ q. (p < q) × IsPartner (plain_at means.flat key.state) q word writes
            × HasNoPartner (plain_at means.flat key.state) p q word writes) }
    {
        for q in p + 1..self.rows.nodes {
            let Some((other, also)) = access_of(self.next(row, q)) else {
                continue;
            };
            if joins(other, also, word, writes) {
                return Some(q);
            }
        }
        None
    }

    /// Returns whether every node has arrived and none has departed.
    pub fn all_wait(&self, row: &Row) -> bool
        requires { IsKnown self.now row.now }
        ensures { (means : TheMeans) (key : Key) → IsTable means self.now
            → IsRowOf means self.now row.now key
            → (IsTrue result ↔ AllWait (plain_at means.flat key.state)) }
    {
        for node in 0..self.rows.nodes {
            if !is_waiting(self.next(row, node)) {
                return false;
            }
        }
        true
    }

    /// Returns whether no node can make an act, and some node has neither ended nor trapped.
    pub fn is_stuck(&self, row: &Row) -> bool
        requires { IsKnown self.now row.now }
        ensures { (means : TheMeans) (key : Key) → IsTable means self.now
            → IsRowOf means self.now row.now key
            → (IsTrue result ↔ IsStuck (plain_at means.flat key.state)) }
    {
        self.is_still(row) && self.is_unfinished(row)
    }

    /// Returns whether no node can make an act.
    pub fn is_still(&self, row: &Row) -> bool
        requires { IsKnown self.now row.now }
        ensures { (means : TheMeans) (key : Key) → IsTable means self.now
            → IsRowOf means self.now row.now key
            → (IsTrue result ↔ IsAtRest (plain_at means.flat key.state)) }
    {
        let departs = self.all_wait(row);
        for node in 0..self.rows.nodes {
            if self.can_act(row, node, departs) {
                return false;
            }
        }
        true
    }

    // Whether a node can make an act, where those that wait depart or do not.
    fn can_act(&self, row: &Row, node: usize, departs: bool) -> bool
        requires row { IsKnown self.now row.now }
        requires node { node < self.now.rows.nodes }
        ensures { (words : List ℕ) (holders : List (Option ℕ))
            → IsSharedAt self.now.rows.shared row.now.shared words holders
            → result ≡ can_act (next_at self.now row.now node) holders departs }
    {
        match self.next(row, node) {
            Next::Stopped => false,
            Next::Waits => departs,
            Next::Acquires(lock) => self.rows.shared.is_free(row.shared, lock as usize),
            Next::Turns | Next::Reads(_) | Next::Writes(..) => true,
        }
    }

    /// Returns whether some node has neither ended nor trapped.
    pub fn is_unfinished(&self, row: &Row) -> bool
        requires { IsKnown self.now row.now }
        ensures { (means : TheMeans) (key : Key) → IsTable means self.now
            → IsRowOf means self.now row.now key
            → (IsTrue result ↔ IsUnfinished (plain_at means.flat key.state)) }
    {
        for node in 0..self.rows.nodes {
            if !is_stopped(self.next(row, node)) {
                return true;
            }
        }
        false
    }
}

// The word that is accessed next, and whether it is written.
fn access_of(next: Next) -> Option<(u32, bool)>
    ensures { result ≡ access_by next }
{
    match next {
        Next::Reads(word) => Some((word, false)),
        Next::Writes(word, _) => Some((word, true)),
        _ => None,
    }
}

// Whether both accesses are of one word, and one of them is a write.
fn joins(other: u32, also: bool, word: u32, writes: bool) -> bool
    ensures { IsTrue result ↔ ((other ≡ word) × IsTrue (writes || also)) }
{
    other == word && (writes || also)
}

// Whether a thread waits at a barrier.
fn is_waiting(next: Next) -> bool
    ensures { result ≡ is_waiting next }
{
    matches!(next, Next::Waits)
}

// Whether a thread has stopped.
fn is_stopped(next: Next) -> bool
    ensures { result ≡ is_stopped next }
{
    matches!(next, Next::Stopped)
}
