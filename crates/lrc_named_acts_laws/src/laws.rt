// Laws of the acts of named statements. These functions do nothing: each contract states a law.
//
// A law speaks of a node that stands before the core of a statement, whatever acts led it there, and of what it does next. A read may
// give it any value.

ghost use Rattle.std.specs.Prelude.{◌≡◌, ◌≢◌, ◌+◌, ◌^◌, ◌<◌, ◌≤◌, ◌⊎◌, ℕ, true, false, Option, Some, None, List, [], ◌∷◌, length};
ghost use Rattle.lrc_program.specs.declared.Statement.{Statement};
ghost use Rattle.lrc_trace.specs.declared.act.Cause.{Cause};
ghost use Rattle.lrc_trace.specs.declared.act.Cause.TheVariants.{DivisionByZero, LockHeld, LockNotHeld, LockOutOfRange};
ghost use Rattle.lrc_trace.specs.declared.act.Deed.{Deed};
ghost use Rattle.lrc_trace.specs.declared.act.Deed.TheVariants.{Acquire, Quiet, Release, Trap};
ghost use Rattle.lrc_exec.specs.Meaning.{Thread, next_of};
ghost use Rattle.lrc_exec.specs.Follows.{Goes};
ghost use Rattle.lrc_named_tree.specs.Tree.{Block as Tree, Named, Place};
ghost use Rattle.lrc_named_names.specs.Names.{Declared, Item};
ghost use Rattle.lrc_named_core.specs.Tree.{assign, behind, Block, empty, Expression, has_division, if_else, named, next, only, Origin, Private, private, release};
ghost use Rattle.lrc_named_address.specs.Address.{address};
ghost use Rattle.lrc_named_address_laws.specs.Elements.{IsBeyond};
ghost use Rattle.lrc_named_address_laws.specs.Values.{HaveValues};
ghost use Rattle.lrc_named_translation.specs.Made.{truth};
ghost use Rattle.lrc_named_statements.specs.Statements.{AreCores, closing, counting, from, guarded, trial_of};
ghost use Rattle.lrc_named_acts_laws.specs.Coded.{AllSet, block_coded, IsNotOwn, KeepAll, number_of, Numbers};
ghost use Rattle.lrc_named_acts_laws.specs.Rounds.{Rounds, step_of};
ghost use Rattle.lrc_named_acts_laws.specs.Standing.{is_zero, IsSteady, StandsBefore, Stays, UsesElement, value_at, worth};

/// An assertion fails exactly where its condition is 0: there its last statement is a trap, and else a step of the node alone.
pub fn an_assertion_fails_where_its_condition_is_zero()
    ensures fails { (numbers : Numbers) (t : Thread) (at : Origin) (name : Private) (p : Expression) (more : List Statement)
        → StandsBefore numbers t (only (assign at name (trial_of p))) more → value_at numbers t p ≡ Some 0
        → (d : Deed) (after : Option Thread) → Goes (next_of t) d after → (d ≡ Trap DivisionByZero) × (after ≡ None) }
    ensures holds { (numbers : Numbers) (t : Thread) (at : Origin) (name : Private) (p : Expression) (more : List Statement) (v : ℕ)
        → StandsBefore numbers t (only (assign at name (trial_of p))) more → value_at numbers t p ≡ Some v → v ≢ 0
        → (d : Deed) (after : Option Thread) → Goes (next_of t) d after
        → (d ≡ Quiet) × (u : Thread) × (after ≡ Some u) × StandsBefore numbers u empty more }
    ensures has_a_value { (numbers : Numbers) (t : Thread) (p : Expression) → has_division p ≡ false
        → (v : ℕ) × (value_at numbers t p ≡ Some v) }
{}

/// A `for` makes its block once for each value from its first to the one below its end, ascending, as long as the block does not set its
/// name: the acts of a node from before a `for` are those of its rounds. Its end is computed once.
pub fn a_for_makes_its_block_once_for_each_value()
    ensures { (numbers : Numbers) (token : ℕ) (name : Named) (first limit : Expression) (inside : Block) (more : List Statement)
        (t : Thread) (a b : ℕ)
        → StandsBefore numbers t (counting token name first limit inside) more
        → value_at numbers t first ≡ Some a → value_at numbers t limit ≡ Some b → b < 2 ^ 64
        → number_of numbers (named name.bytes) < length t.privates
        → KeepAll (number_of numbers (named name.bytes)) (block_coded numbers inside)
        → IsSteady numbers limit (behind inside (only (step_of (from token) (named name.bytes))))
        → (ds : List Deed) (u : Thread) → Stays (length more) t ds u
        → ((ds ≡ []) × (u ≡ t)) ⊎ ((s : Thread) × (es : List Deed) × (ds ≡ Quiet ∷ es)
        × Goes (next_of t) Quiet (Some s) × (worth numbers s (named name.bytes) ≡ a)
        × Rounds numbers (from token) (named name.bytes) limit inside more b a s es u) }
{}

/// What a `for` or a `with` holds is a name that its block does not set: where the statements around a block hold so many names, its
/// core sets none of them.
pub fn blocks_keep_what_is_held()
    ensures held { (declared : List Declared) (held k : ℕ) (statements : Tree) (core : Block)
        → AreCores declared held statements core → k ≤ held → AllSet (IsNotOwn k) core }
    ensures kept { (numbers : Numbers) (k : ℕ) (core : Block)
        → AllSet (λ name. number_of numbers name ≢ numbers.of_own k) core
        → KeepAll (numbers.of_own k) (block_coded numbers core) }
{}

/// A `with` releases the lock that it has acquired, whatever its block sets: the release at its end is of that lock. It traps only if
/// the block has released the lock itself.
pub fn a_with_releases_what_it_has_acquired()
    ensures acquires { (numbers : Numbers) (token close : ℕ) (p : Place) (word : Expression) (inside : Block) (more : List Statement)
        (t : Thread) (l : ℕ)
        → StandsBefore numbers t (guarded token close p word inside) more → value_at numbers t word ≡ Some l
        → (d : Deed) (after : Option Thread) → Goes (next_of t) d after
        → (d ≡ Acquire l) ⊎ (d ≡ Trap LockHeld) ⊎ (d ≡ Trap LockOutOfRange) }
    ensures releases { (numbers : Numbers) (token close : ℕ) (p : Place) (word : Expression) (inside : Block) (more : List Statement)
        (t s u : Thread) (l : ℕ) (ds : List Deed)
        → StandsBefore numbers t (guarded token close p word inside) more → value_at numbers t word ≡ Some l
        → IsSteady numbers word inside → Goes (next_of t) (Acquire l) (Some s) → Stays (length more + 1) s ds u
        → StandsBefore numbers u (only (release (closing token close p) word)) more
        → (d : Deed) (after : Option Thread) → Goes (next_of u) d after
        → (d ≡ Release l) ⊎ (d ≡ Trap LockNotHeld) }
{}

/// In `a and b`, where a is 0, no act of b is made: two steps of the node alone lead behind its core. Where a is not 0, b is made. In
/// `a or b` it is the other way. What the node then holds of the whole is 0, of `a or b` 1.
pub fn the_right_side_is_left_out_where_the_left_one_decides()
    ensures and { (numbers : Numbers) (at : Origin) (name : Private) (p : Expression) (inside : Block) (more : List Statement)
        (t s u : Thread) (v : ℕ) (d e : Deed)
        → number_of numbers name < length t.privates
        → StandsBefore numbers t (next (assign at name (truth p)) (only (if_else at (private name) inside empty))) more
        → value_at numbers t p ≡ Some v → Goes (next_of t) d (Some s) → Goes (next_of s) e (Some u)
        → (d ≡ Quiet) × (e ≡ Quiet) × ((v ≡ 0) → StandsBefore numbers u empty more × (worth numbers u name ≡ 0))
        × ((v ≢ 0) → StandsBefore numbers u inside more) }
    ensures or { (numbers : Numbers) (at : Origin) (name : Private) (p : Expression) (inside : Block) (more : List Statement)
        (t s u : Thread) (v : ℕ) (d e : Deed)
        → number_of numbers name < length t.privates
        → StandsBefore numbers t (next (assign at name (truth p)) (only (if_else at (is_zero name) inside empty))) more
        → value_at numbers t p ≡ Some v → Goes (next_of t) d (Some s) → Goes (next_of s) e (Some u)
        → (d ≡ Quiet) × (e ≡ Quiet) × ((v ≢ 0) → StandsBefore numbers u empty more × (worth numbers u name ≡ 1))
        × ((v ≡ 0) → StandsBefore numbers u inside more) }
{}

/// With an index that is not below its size a node traps, wherever it reads, writes, acquires or releases the element.
pub fn an_index_out_of_range_traps()
    ensures { (numbers : Numbers) (t : Thread) (item : Item) (es : List Expression) (vs : List ℕ) (core : Block) (more : List Statement)
        → StandsBefore numbers t core more → UsesElement (address item es) core
        → HaveValues (worth numbers t) t.setting.me t.setting.nodes es vs
        → length item.sizes ≡ length vs → IsBeyond item.sizes vs
        → t.setting.words ≤ 65536 → t.setting.locks ≤ 64
        → (d : Deed) (after : Option Thread) → Goes (next_of t) d after → (cause : Cause) × (d ≡ Trap cause) × (after ≡ None) }
{}
