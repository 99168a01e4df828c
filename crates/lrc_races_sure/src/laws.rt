// Laws of sure races. Each function is a theorem: its body is empty, and its clause is the law.

ghost use Rattle.std.specs.Prelude.{◌≡◌, ℕ, ◌<◌, ◌≤◌, ◌↔◌, List, [], Contains};
ghost use Rattle.lrc_races_trace.specs.declared.event.Event.{Event};
ghost use Rattle.lrc_races_trace.specs.declared.event.Pair.{Pair};
ghost use Rattle.lrc_races_trace.specs.Trace.{At};
ghost use Rattle.lrc_races_trace.specs.Races.{Conflict, Races, IsTold};
ghost use Rattle.lrc_races_trace.specs.Formed.{IsWellFormed};
ghost use Rattle.lrc_races_sure.specs.Sure.{IsSureRace, IsSureTold, AreSureTold};
ghost use Rattle.lrc_races_sure.specs.Reordering.{IsReordering, AreOnTheWay};

/// Each sure race has a reordering of the trace that shows it: all events by way of which the two accesses were reached,
/// in the order of the trace, and then the two. If the trace is well formed, so is the reordering.
pub fn each_sure_race_is_shown()
    ensures { (events : List Event) (i j : ℕ) → IsSureRace events i j
        → (positions : List ℕ) × (list : List Event) × AreOnTheWay events i j positions
        × IsReordering events i j positions list
        × (IsWellFormed events → IsWellFormed list) }
{}

/// Each sure race is a race.
pub fn sure_races_race()
    ensures { (events : List Event) (i j : ℕ) → IsSureRace events i j → Races events i j }
{}

/// Of the first access that races with an earlier one, every race is sure.
pub fn races_of_the_first_racing_access_are_sure()
    ensures { (events : List Event) (i j : ℕ) → Races events i j
        → ((k l : ℕ) → l < j → ¬ Races events k l) → IsSureRace events i j }
{}

/// If two accesses race, there is a sure race, of which the later access is no later.
pub fn a_race_is_sure_if_any_is()
    ensures { (events : List Event) (i j : ℕ) → Races events i j
        → (k : ℕ) × (l : ℕ) × IsSureRace events k l × (l ≤ j) }
{}

/// If two accesses are a sure race, then so are the later one and each later access of the earlier one's thread that
/// conflicts with it and is before it.
pub fn later_accesses_are_sure_too()
    ensures { (events : List Event) (i k j : ℕ) (a c b : Event) → IsSureRace events i j
        → At events i a → At events k c → At events j b
        → i < k → k < j → c.thread ≡ a.thread → Conflict c b → IsSureRace events k j }
{}

/// The pairs that are reported as sure are among those that are reported as races.
pub fn sure_pairs_are_told()
    ensures { (events : List Event) (pair : Pair) → IsSureTold events pair → IsTold events pair }
{}

/// If two accesses are a sure race, a pair is reported of the later one and of an access of the earlier one's thread that
/// is no older.
pub fn each_sure_race_is_told()
    ensures { (events : List Event) (pairs : List Pair) (i j : ℕ) (a : Event) → AreSureTold events pairs
        → At events i a → IsSureRace events i j
        → (pair : Pair) × Contains pairs pair × (pair.later.position ≡ j)
        × (pair.earlier.event.thread ≡ a.thread) × (i ≤ pair.earlier.position) }
{}

/// Nothing is reported as sure exactly if no two accesses race.
pub fn nothing_is_sure_where_nothing_races()
    ensures { (events : List Event) (pairs : List Pair) → AreSureTold events pairs
        → ((pairs ≡ []) ↔ ((i j : ℕ) → ¬ Races events i j)) }
{}
