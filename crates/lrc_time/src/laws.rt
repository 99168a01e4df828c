// What always holds of vector times. Each function is a law: its clauses are the statement, and there is nothing to do.

ghost use Rattle.std.specs.Prelude.{◌≡◌, ◌≢◌, ℕ, ◌<◌, List, length};
ghost use Rattle.lrc_time.specs.Time.{Covers, joined, weight_of};

use crate::MOST_NODES;

/// The largest number of nodes is 16.
pub fn the_limits()
    ensures { MOST_NODES ≡ 16 }
{}

/// Let two different times have equally many entries. If one covers the other, it weighs more.
pub fn weight_rises_with_cover()
    ensures { (a b : List ℕ) → length a ≡ length b → Covers a b → a ≢ b
        → weight_of b < weight_of a }
{}

/// Covering is a partial order on the times with equally many entries.
pub fn covering_is_a_partial_order()
    ensures reflexive { (a : List ℕ) → Covers a a }
    ensures transitive { (a b c : List ℕ) → Covers a b → Covers b c → Covers a c }
    ensures antisymmetric { (a b : List ℕ) → length a ≡ length b → Covers a b → Covers b a → a ≡ b }
{}

/// The join of two times with equally many entries is their least cover: it covers both, and every time that covers
/// both covers the join.
pub fn join_is_the_least_cover()
    ensures entries { (a b : List ℕ) → length a ≡ length b → length (joined a b) ≡ length a }
    ensures covers_first { (a b : List ℕ) → Covers (joined a b) a }
    ensures covers_second { (a b : List ℕ) → Covers (joined a b) b }
    ensures least { (a b c : List ℕ) → Covers c a → Covers c b → Covers c (joined a b) }
{}
