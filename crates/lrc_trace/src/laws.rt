// Laws of the definitions on runs, and of what a trace notes. Each function is a theorem: its body is empty, and its clause is the law.

ghost use Rattle.std.specs.Prelude.{◌≡◌, ◌≢◌, ℕ, ◌<◌, ◌≤◌, ◌+◌, ◌++◌, ◌↔◌, ◌⊎◌, List, [], ◌∷◌, Bool, false, IsTrue, length};
ghost use Rattle.lrc_trace.specs.declared.act.Act.{Act};
ghost use Rattle.lrc_trace.specs.declared.act.Deed.{Deed};
ghost use Rattle.lrc_trace.specs.declared.act.Deed.TheVariants.{Read};
ghost use Rattle.lrc_trace.specs.declared.race.Race.{Race};
ghost use Rattle.lrc_trace.specs.Run.{Does, is_depart, arrives_before, departs_before};
ghost use Rattle.lrc_trace.specs.Order.{HappensBefore};
ghost use Rattle.lrc_trace.specs.Conflict.{Accesses, Conflict, Races, IsRaceFree};
ghost use Rattle.lrc_trace.specs.Reading.{AreOrdered, MayRead, ReadsLazily};
ghost use Rattle.lrc_trace.specs.Interval.{closes, interval_at, IsNamedRace};
ghost use Rattle.lrc_trace.specs.Outline.{SameButValues};
ghost use Rattle.lrc_trace.specs.Segments.{AreSegments};
ghost use Rattle.lrc_trace.specs.Trace.{TraceRecord, NotedAccess, IsNoted, MayNote, noted};
ghost use Rattle.lrc_trace.specs.Synchronization.{Holds, IsWellSynchronized, WaitsAtBarriers, MayGoOn};

/// If one position happens before another, it is the earlier one in the run.
pub fn happens_before_goes_forward()
    ensures { (run : List Act) (i j : ℕ) → HappensBefore run i j → (i < j) × (j < length run) }
{}

/// Happens before is transitive.
pub fn happens_before_is_transitive()
    ensures { (run : List Act) (i j k : ℕ) → HappensBefore run i j → HappensBefore run j k
        → HappensBefore run i k }
{}

/// For positions in a prefix of a run, happens before on the prefix is the same as on the whole run.
pub fn happens_before_on_a_prefix()
    ensures { (run more : List Act) (i j : ℕ) → j < length run
        → (HappensBefore run i j ↔ HappensBefore (run ++ more) i j) }
{}

/// Conflict is symmetric.
pub fn conflict_is_symmetric()
    ensures { (run : List Act) (i j : ℕ) → Conflict run i j → Conflict run j i }
{}

/// A race is never between acts of one node.
pub fn races_are_between_nodes()
    ensures { (run : List Act) (i j p q : ℕ) (a b : Deed)
        → Races run i j → Does run i p a → Does run j q b → p ≢ q }
{}

/// If the writes to a word that happen before a read are pairwise ordered, the read may give one value only. This is
/// the strong half of lazy reading.
pub fn ordered_writes_give_one_value()
    ensures { (run : List Act) (j word v w : ℕ) → AreOrdered run j word
        → MayRead run j word v → MayRead run j word w → v ≡ w }
{}

/// The interval of a node never falls along the run.
pub fn intervals_never_fall()
    ensures { (run : List Act) (node i j : ℕ) → i ≤ j
        → interval_at run node i ≤ interval_at run node j }
{}

/// Two accesses of one node are in the same interval exactly if the node makes no acquire, release or arrive between
/// them.
pub fn same_interval_has_no_close_between()
    ensures { (run : List Act) (node i j v w : ℕ) → i < j → Accesses run i node v
        → Accesses run j node w
        → ((interval_at run node i ≡ interval_at run node j)
        ↔ ((k : ℕ) (d : Deed) → i ≤ k → k < j → Does run k node d → IsTrue (closes d) → ⊥)) }
{}

/// A node is in the same interval at two positions exactly if it makes no acquire, release or arrive from the first
/// position up to, but not including, the second. Each of these acts takes the node to its next interval.
pub fn intervals_rise_at_closes()
    ensures same { (run : List Act) (node i j : ℕ) → i ≤ j
        → ((interval_at run node i ≡ interval_at run node j)
        ↔ ((k : ℕ) (d : Deed) → i ≤ k → k < j → Does run k node d → IsTrue (closes d) → ⊥)) }
    ensures next { (run : List Act) (node i : ℕ) (d : Deed) → Does run i node d → IsTrue (closes d)
        → interval_at run node (i + 1) ≡ interval_at run node i + 1 }
{}

/// On a prefix of a run, intervals, holders of locks, races, and the values that a read may give are the same as on the
/// whole run.
pub fn definitions_on_a_prefix()
    ensures intervals { (run more : List Act) (node i : ℕ) → i ≤ length run
        → interval_at (run ++ more) node i ≡ interval_at run node i }
    ensures holders { (run more : List Act) (n node l : ℕ) → n ≤ length run
        → (Holds run n node l ↔ Holds (run ++ more) n node l) }
    ensures races { (run more : List Act) (i j : ℕ) → j < length run
        → (Races run i j ↔ Races (run ++ more) i j) }
    ensures reads { (run more : List Act) (j word value : ℕ) → j < length run
        → (MayRead run j word value ↔ MayRead (run ++ more) j word value) }
{}

/// A run with one more act is well synchronized exactly if the run is and may go on with that act.
pub fn well_synchronized_by_one_act_more()
    ensures { (nodes : ℕ) (run : List Act) (act : Act)
        → (IsWellSynchronized nodes (run ++ act ∷ [])
        ↔ (IsWellSynchronized nodes run × MayGoOn nodes run act)) }
{}

/// In a run with one more act, nodes wait at their barriers exactly if they do in the run and the act is a depart or
/// comes from a node that has departed at least as often as it has arrived.
pub fn waiting_at_barriers_by_one_act_more()
    ensures { (run : List Act) (act : Act)
        → (WaitsAtBarriers (run ++ act ∷ []) ↔ (WaitsAtBarriers run × (is_depart act.deed ≡ false
        → arrives_before run act.node (length run) ≤ departs_before run act.node (length run)))) }
{}

/// A run with one more act reads lazily exactly if the run does and the act, if it is a read, gives a value that it may
/// give.
pub fn reads_lazily_by_one_act_more()
    ensures { (run : List Act) (act : Act)
        → (ReadsLazily (run ++ act ∷ [])
        ↔ (ReadsLazily run × ((word value : ℕ) → act.deed ≡ Read word value
        → MayRead (run ++ act ∷ []) (length run) word value))) }
{}

/// A run is race free exactly if it names no race.
pub fn a_run_that_names_no_race_is_race_free()
    ensures { (run : List Act) → (((race : Race) → ¬ IsNamedRace run race) ↔ IsRaceFree run) }
{}

/// In a well-synchronized run, a lock has at most one holder at each position.
pub fn a_lock_has_one_holder()
    ensures { (nodes : ℕ) (run : List Act) → IsWellSynchronized nodes run
        → (position p q l : ℕ) → Holds run position p l → Holds run position q l → p ≡ q }
{}

/// Of any two positions, either the first happens before the second or it does not.
pub fn happens_before_is_decided()
    ensures { (run : List Act) (i j : ℕ) → HappensBefore run i j ⊎ (¬ HappensBefore run i j) }
{}

/// The order and the races of a run do not depend on values. If two runs differ only in the values printed, read and
/// written, the same positions are ordered, the same positions race, and both runs name the same races.
pub fn races_do_not_depend_on_values()
    ensures order { (run other : List Act) (i j : ℕ) → SameButValues run other
        → (HappensBefore run i j ↔ HappensBefore other i j) }
    ensures races { (run other : List Act) (i j : ℕ) → SameButValues run other
        → (Races run i j ↔ Races other i j) }
    ensures names { (run other : List Act) (race : Race) → SameButValues run other
        → (IsNamedRace run race ↔ IsNamedRace other race) }
{}

/// After an access is noted, a trace has exactly that access and those that it had before.
pub fn what_is_noted_is_added()
    ensures { (trace : TraceRecord) (epoch interval : ℕ) (time : List ℕ) (word : ℕ)
        (is_write : Bool)
        → AreSegments trace.segments → MayNote trace.segments epoch interval time
        → (access : NotedAccess)
        → IsNoted (noted trace epoch interval time word is_write) access
        ↔ (IsNoted trace access ⊎ (access ≡ record {
          epoch = epoch;
          interval = interval;
          time = time;
          word = word;
          is_write = is_write;
        })) }
{}
