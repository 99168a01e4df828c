// Laws of the definitions. Each function is a theorem: its body is empty, and its clause is the law.

ghost use Rattle.std.specs.Prelude.{◌≡◌, ℕ, ◌<◌, ◌≤◌, ◌++◌, ◌↔◌, List, [], All, Contains, length};
ghost use Rattle.lrc_races_trace.specs.declared.event.Event.{Event};
ghost use Rattle.lrc_races_trace.specs.declared.event.Pair.{Pair};
ghost use Rattle.lrc_races_trace.specs.Trace.{At};
ghost use Rattle.lrc_races_trace.specs.Order.{HappensBefore};
ghost use Rattle.lrc_races_trace.specs.Races.{Races, AreTold};

/// If an event happens before another, it is earlier in the trace.
pub fn happens_before_goes_forward()
    ensures { (events : List Event) (i j : ℕ) → HappensBefore events i j → i < j }
{}

/// Happens before is transitive.
pub fn happens_before_is_transitive()
    ensures { (events : List Event) (i j k : ℕ) → HappensBefore events i j
        → HappensBefore events j k → HappensBefore events i k }
{}

/// What follows two events does not affect their order. So what was reported of a trace remains true when more events
/// come.
pub fn happens_before_on_a_prefix()
    ensures { (events more : List Event) (i j : ℕ) → j < length events
        → (HappensBefore events i j ↔ HappensBefore (events ++ more) i j) }
{}

/// Each reported pair races.
pub fn told_pairs_race()
    ensures { (events : List Event) (pairs : List Pair) → AreTold events pairs
        → All (λ pair. Races events pair.earlier.position pair.later.position) pairs }
{}

/// If two accesses race, a pair is reported of the later one and of an access of the earlier one's thread that is no
/// older.
pub fn each_race_is_told()
    ensures { (events : List Event) (pairs : List Pair) (i j : ℕ) (a : Event) → AreTold events pairs
        → At events i a → Races events i j
        → (pair : Pair) × Contains pairs pair × (pair.later.position ≡ j)
        × (pair.earlier.event.thread ≡ a.thread) × (i ≤ pair.earlier.position) }
{}

/// A pair is reported of an access, as the later one, exactly if the access races with an earlier one.
pub fn an_access_is_told_exactly_where_it_races()
    ensures { (events : List Event) (pairs : List Pair) (j : ℕ) → AreTold events pairs
        → ((pair : Pair) × Contains pairs pair × (pair.later.position ≡ j))
        ↔ ((i : ℕ) × Races events i j) }
{}

/// Nothing is reported exactly if no two accesses race.
pub fn nothing_is_told_where_nothing_races()
    ensures { (events : List Event) (pairs : List Pair) → AreTold events pairs
        → ((pairs ≡ []) ↔ ((i j : ℕ) → ¬ Races events i j)) }
{}

/// All lists of the pairs that are reported of a trace have the same pairs.
pub fn one_list_is_told()
    ensures { (events : List Event) (one other : List Pair) → AreTold events one
        → AreTold events other
        → (pair : Pair) → Contains one pair ↔ Contains other pair }
{}
