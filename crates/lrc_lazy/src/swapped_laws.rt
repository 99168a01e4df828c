// What stays where two neighbouring acts change places. Each function is a theorem: its body is empty, and its clause is the law.

ghost use Rattle.std.specs.Prelude.{◌≢◌, ◌↔◌, ◌++◌, ◌∷◌, [], ℕ, List, length};
ghost use Rattle.lrc_trace.specs.declared.act.Act.{Act};
ghost use Rattle.lrc_trace.specs.Order.{HappensBefore};
ghost use Rattle.lrc_trace.specs.Reading.{MayRead, ReadsLazily};
ghost use Rattle.lrc_trace.specs.Synchronization.{IsWellSynchronized, MayGoOn};
ghost use Rattle.lrc_lazy.specs.Swapped.{pair, Moved, IsNoAcquire, MayComeFirst};

/// If the second act may come before the first, the run with the two swapped is well synchronized too.
pub fn the_run_stays_well_synchronized()
    ensures { (nodes : ℕ) (front : List Act) (first second : Act) (rest : List Act)
        → IsWellSynchronized nodes (pair front first second rest)
        → MayComeFirst nodes front first second
        → IsWellSynchronized nodes (pair front second first rest) }
{}

/// The swap keeps the happens-before order, each act taken at its new position.
pub fn what_happens_before_what_stays()
    ensures { (nodes : ℕ) (front : List Act) (first second : Act) (rest : List Act)
        → IsWellSynchronized nodes (pair front first second rest)
        → MayComeFirst nodes front first second → (i j m n : ℕ) → Moved (length front) i m
        → Moved (length front) j n
        → (HappensBefore (pair front first second rest) i j
        ↔ HappensBefore (pair front second first rest) m n) }
{}

/// The swap keeps the values that each read may give. So one run reads lazily exactly if the other does.
pub fn what_reads_may_give_stays()
    ensures each { (nodes : ℕ) (front : List Act) (first second : Act) (rest : List Act)
        → IsWellSynchronized nodes (pair front first second rest)
        → MayComeFirst nodes front first second → (i j word value : ℕ) → Moved (length front) i j
        → (MayRead (pair front first second rest) i word value
        ↔ MayRead (pair front second first rest) j word value) }
    ensures all { (nodes : ℕ) (front : List Act) (first second : Act) (rest : List Act)
        → IsWellSynchronized nodes (pair front first second rest)
        → MayComeFirst nodes front first second
        → (ReadsLazily (pair front first second rest)
        ↔ ReadsLazily (pair front second first rest)) }
{}

/// After two acts of different nodes, locks and barriers allow the same next acts, whichever of the two came first.
pub fn what_may_come_next_stays()
    ensures { (nodes : ℕ) (front : List Act) (first second : Act) (rest : List Act)
        → first.node ≢ second.node → (act : Act)
        → (MayGoOn nodes (pair front first second rest) act
        ↔ MayGoOn nodes (pair front second first rest) act) }
{}

/// If an act may come next and is no acquire, it still may after an act of another node.
pub fn what_may_come_next_still_may()
    ensures { (nodes : ℕ) (run : List Act) (act other : Act) → other.node ≢ act.node
        → IsNoAcquire act.deed → MayGoOn nodes run act
        → MayGoOn nodes (run ++ other ∷ []) act }
{}
