// Laws of the definitions of reasons. Each function is a theorem: its body is empty, and its clause is the law.
ghost use Rattle.std.specs.Prelude.{◌≡◌, ℕ, ◌<◌, ◌⊎◌, ◌↔◌, List};
ghost use Rattle.lrc_trace.specs.declared.act.Act.{Act};
ghost use Rattle.lrc_trace.specs.declared.act.Deed.{Deed};
ghost use Rattle.lrc_trace.specs.declared.act.Deed.TheVariants.{Write};
ghost use Rattle.lrc_trace.specs.Run.{Does, IsDone, departs_before};
ghost use Rattle.lrc_trace.specs.Conflict.{Races};
ghost use Rattle.lrc_trace.specs.Interval.{interval_at};
ghost use Rattle.lrc_trace.specs.Synchronization.{Holds, IsWellSynchronized, WaitsAtBarriers};
ghost use Rattle.lrc_trace.specs.Order.{HappensBefore};
ghost use Rattle.lrc_trace.specs.Reading.{WrittenBefore, MayRead};
ghost use Rattle.lrc_why_chains.specs.Chains.{IsChain, IsTold};
ghost use Rattle.lrc_why_chains.specs.Writes.{IsKnownWrite, IsLastKnownWrite, IsCrossing};

/// There is a chain from one position to another exactly if the one happens before the other.
pub fn a_chain_is_there_where_one_happens_before_the_other()
    ensures { (run : List Act) (i j : ℕ) → ((chain : List ℕ) × IsChain run i j chain)
        ↔ HappensBefore run i j }
{}

/// The least of the shortest chains from one position to another exists exactly if the one happens before the other,
/// and is unique.
pub fn one_chain_is_told()
    ensures there { (run : List Act) (i j : ℕ) → ((chain : List ℕ) × IsTold run i j chain)
        ↔ HappensBefore run i j }
    ensures alone { (run : List Act) (i j : ℕ) (chain other : List ℕ) → IsTold run i j chain
        → IsTold run i j other → chain ≡ other }
{}

/// In a well-synchronized run, acts at which one lock is held are ordered. So two acts that race hold no lock in
/// common.
pub fn races_hold_no_lock_in_common()
    ensures ordered { (nodes : ℕ) (run : List Act) → IsWellSynchronized nodes run
        → (i j p q l : ℕ) (a b : Deed) → i < j
        → Does run i p a → Does run j q b → Holds run i p l → Holds run j q l
        → HappensBefore run i j }
    ensures races { (nodes : ℕ) (run : List Act) → IsWellSynchronized nodes run
        → (i j p q l : ℕ) (a b : Deed) → Races run i j
        → Does run i p a → Does run j q b → Holds run i p l → ¬ Holds run j q l }
{}

/// If two acts race, the earlier one's interval is past every interval of its node that the later one knows. This holds
/// for any list of acts.
pub fn races_are_past_what_is_known()
    ensures { (run : List Act) (i j k p : ℕ) (a d : Deed) → Races run i j → Does run i p a
        → Does run k p d → HappensBefore run k j
        → interval_at run p k < interval_at run p i }
{}

/// In a well-synchronized run whose nodes wait at their barriers, two acts that race are behind the same barrier: their
/// nodes have departed equally often before them.
pub fn races_are_behind_the_same_barrier()
    ensures { (nodes : ℕ) (run : List Act) → IsWellSynchronized nodes run → WaitsAtBarriers run
        → (i j p q : ℕ) (a b : Deed)
        → Races run i j → Does run i p a → Does run j q b → p < nodes → q < nodes
        → departs_before run p i ≡ departs_before run q j }
{}

/// The known writes to its word determine what a read may give. If no two of them race, it is the value of the last
/// one, or 0 if there are none. If two race, it is 0 or what any of them wrote.
pub fn known_writes_say_what_a_read_may_give()
    ensures last { (run : List Act) (position word i value : ℕ)
        → IsLastKnownWrite run position word i → IsDone run i (Write word value)
        → ((k l : ℕ) → ¬ IsCrossing run position word k l)
        → (given : ℕ) → MayRead run position word given ↔ (given ≡ value) }
    ensures none { (run : List Act) (position word : ℕ)
        → ((i : ℕ) → ¬ IsKnownWrite run position word i)
        → (given : ℕ) → MayRead run position word given ↔ (given ≡ 0) }
    ensures race { (run : List Act) (position word i j : ℕ) → IsCrossing run position word i j
        → (given : ℕ) → MayRead run position word given
        ↔ ((given ≡ 0) ⊎ ((k : ℕ) × WrittenBefore run position word k given)) }
{}
