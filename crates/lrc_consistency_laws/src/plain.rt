// From lazy reading to the plain machine. Each function is a theorem: its body is empty, and its clause is the law.

ghost use Rattle.std.specs.Prelude.{◌≡◌, ℕ, ◌+◌, ◌<◌, ◌≤◌, List, Some, map, take, length};
ghost use Rattle.lrc_program.specs.declared.Program.{Program};
ghost use Rattle.lrc_trace.specs.declared.act.Act.{Act};
ghost use Rattle.lrc_trace.specs.declared.act.Deed.{Deed};
ghost use Rattle.lrc_trace.specs.Run.{Does};
ghost use Rattle.lrc_trace.specs.Conflict.{Races, IsRaceFree};
ghost use Rattle.lrc_trace.specs.Reading.{ReadsLazily};
ghost use Rattle.lrc_trace.specs.Synchronization.{IsWellSynchronized, WaitsAtBarriers};
ghost use Rattle.lrc_exec.specs.Plain.{plain};
ghost use Rattle.lrc_exec.specs.Follows.{FollowsText, nodes_of_acts};
ghost use Rattle.lrc_consistency_laws.specs.Kinds.{PlainUpTo};
ghost use Rattle.lrc_consistency_laws.specs.InOrder.{ReadsInOrder};
ghost use Rattle.lrc_consistency_laws.specs.Racing.{HasNoRace, PlainToRace};

/// The last step of the sequential-consistency theorem. Suppose that each node's acts are those of the text, that the
/// run is well synchronized and reads lazily, and that no two conflicting accesses are unordered. Then the plain
/// machine, led by the order of the acts, makes the same acts.
pub fn lazy_run_without_a_race_is_plain()
    ensures { (program : Program) (nodes : ℕ) (run : List Act) → FollowsText program nodes run
        → IsWellSynchronized nodes run → ReadsLazily run → IsRaceFree run
        → plain program nodes (nodes_of_acts run) ≡ Some run }
{}

/// The same holds up to the first race. Before a position such that no race ends earlier, the plain machine makes the
/// same acts, and then one of the same kind on the same word or lock. Only the value that is read there may differ.
pub fn lazy_run_is_plain_up_to_its_first_race()
    ensures { (program : Program) (nodes : ℕ) (run : List Act) (position : ℕ)
        → FollowsText program nodes run
        → IsWellSynchronized nodes run → ReadsLazily run
        → ((i j : ℕ) → Races run i j → position ≤ j)
        → PlainUpTo program nodes run position }
{}

/// The race at that position is one of the plain machine: its act there, which is of the same kind, races with the same
/// earlier positions.
pub fn the_first_race_is_one_of_the_plain_machine()
    ensures { (program : Program) (nodes : ℕ) (run : List Act) (position : ℕ)
        → FollowsText program nodes run
        → IsWellSynchronized nodes run → ReadsLazily run
        → ((i j : ℕ) → Races run i j → position ≤ j)
        → PlainToRace program nodes run position }
{}

/// Races belong to the program. If no order gives the plain machine a run with a race, then a run that follows the
/// text, is well synchronized and reads lazily has none.
pub fn races_of_lazy_runs_belong_to_the_program()
    ensures { (program : Program) (nodes : ℕ) (run : List Act) → FollowsText program nodes run
        → IsWellSynchronized nodes run → ReadsLazily run → HasNoRace program nodes
        → IsRaceFree run }
{}

/// A run of the plain machine follows the text, is well synchronized, and each read gives the value written last.
pub fn plain_run_is_well_synchronized()
    ensures { (program : Program) (nodes : ℕ) (order : List ℕ) (run : List Act)
        → plain program nodes order ≡ Some run
        → FollowsText program nodes run × IsWellSynchronized nodes run × ReadsInOrder run }
{}

/// In a run of one node in which each read gives the value written last, every read is lazy.
pub fn one_node_that_reads_in_order_reads_lazily()
    ensures { (run : List Act) → ((k node : ℕ) (deed : Deed) → Does run k node deed → node ≡ 0)
        → ReadsInOrder run
        → ReadsLazily run }
{}

/// In a run without a race in which each read gives the value written last, every read is lazy.
pub fn a_run_without_a_race_that_reads_in_order_reads_lazily()
    ensures { (run : List Act) → IsRaceFree run → ReadsInOrder run → ReadsLazily run }
{}

/// A run of the plain machine on any number of nodes reads lazily if it has no race. It follows the text and is well
/// synchronized, so it meets every premise of `lazy_run_without_a_race_is_plain`.
pub fn a_plain_run_without_a_race_reads_lazily()
    ensures { (program : Program) (nodes : ℕ) (order : List ℕ) (run : List Act)
        → plain program nodes order ≡ Some run
        → IsRaceFree run → ReadsLazily run }
{}

/// If each node's acts are those of the text, a node that has arrived at a barrier does nothing until it departs.
pub fn a_run_that_follows_the_text_waits_at_barriers()
    ensures { (program : Program) (nodes : ℕ) (run : List Act) → FollowsText program nodes run
        → WaitsAtBarriers run }
{}
