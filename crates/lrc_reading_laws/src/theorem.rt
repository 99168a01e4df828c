// The sequential-consistency theorem, for every run of the protocol machine: any program, any number of nodes, any options, any
// order of delivery. Each function is a theorem: its body is empty, and its clause is the law.

ghost use Rattle.std.specs.Prelude.{◌≡◌, ℕ, List, Some};
ghost use Rattle.lrc_program.specs.declared.Program.{Program};
ghost use Rattle.lrc_trace.specs.Conflict.{IsRaceFree, IsFirstRace};
ghost use Rattle.lrc_trace.specs.Reading.{ReadsLazily};
ghost use Rattle.lrc_exec.specs.Plain.{plain};
ghost use Rattle.lrc_exec.specs.Follows.{nodes_of_acts};
ghost use Rattle.lrc_consistency_laws.specs.Racing.{HasNoRace, PlainToRace};
ghost use Rattle.lrc_protocol.specs.declared.event.Event.{Event};
ghost use Rattle.lrc_protocol.specs.Node.{OptionsRecord};
ghost use Rattle.lrc_protocol.specs.Run.{World, run_of};

/// In every run, even with races and collections, each read is lazy: it gives 0 or the value of a write that happens
/// before it. If any two of the writes that happen before it are ordered, it gives the value of the last of them, or 0
/// if there are none.
pub fn runs_read_lazily()
    ensures { (program : Program) (nodes : ℕ) (options : OptionsRecord) (events : List Event)
        (world : World)
        → run_of program nodes options events ≡ Some world → ReadsLazily world.acts }
{}

/// The sequential-consistency theorem: if every two conflicting accesses of a run are ordered by program, lock and
/// barrier order, the plain machine, led by the order of the acts, makes the same acts. The reads, writes, prints and
/// traps are the same. (Lazy release consistency: Keleher, Cox and Zwaenepoel 1992.)
pub fn runs_without_a_race_are_plain()
    ensures { (program : Program) (nodes : ℕ) (options : OptionsRecord) (events : List Event)
        (world : World)
        → run_of program nodes options events ≡ Some world → IsRaceFree world.acts
        → plain program nodes (nodes_of_acts world.acts) ≡ Some world.acts }
{}

/// Every run is plain up to its first race. The plain machine, led by the same nodes, makes the acts before it, and
/// then an act of the same kind that races with the same earlier positions. Only the value read there may differ.
pub fn runs_are_plain_up_to_their_first_race()
    ensures { (program : Program) (nodes : ℕ) (options : OptionsRecord) (events : List Event)
        (world : World) (position : ℕ)
        → run_of program nodes options events ≡ Some world → IsFirstRace world.acts position
        → PlainToRace program nodes world.acts position }
{}

/// Races belong to the program: if no order gives the plain machine a run with a race, no run of the program has one.
pub fn races_belong_to_the_program()
    ensures { (program : Program) (nodes : ℕ) (options : OptionsRecord) (events : List Event)
        (world : World)
        → run_of program nodes options events ≡ Some world → HasNoRace program nodes
        → IsRaceFree world.acts }
{}
