// What the times of every run say of its order and its races. Each function is a theorem: its body is empty, and its clauses
// are the law.

ghost use Rattle.std.specs.Prelude.{◌≡◌, ◌≢◌, ℕ, ◌≤◌, ◌<◌, ◌↔◌, List, Some, false};
ghost use Rattle.lrc_program.specs.declared.Program.{Program};
ghost use Rattle.lrc_time.specs.Time.{entry, Covers};
ghost use Rattle.lrc_trace.specs.declared.act.Deed.{Deed};
ghost use Rattle.lrc_trace.specs.declared.race.Race.{Race};
ghost use Rattle.lrc_trace.specs.Run.{Does, is_depart, departs_before};
ghost use Rattle.lrc_trace.specs.Order.{HappensBefore};
ghost use Rattle.lrc_trace.specs.Conflict.{Accesses};
ghost use Rattle.lrc_trace.specs.Interval.{interval_at, IsNamedRace};
ghost use Rattle.lrc_clock.specs.Times.{time_at};
ghost use Rattle.lrc_clock.specs.Cover.{ClosesAt, IsClosedBy};
ghost use Rattle.lrc_clock.specs.Races.{AreUnknown, IsRaceOfSegments};
ghost use Rattle.lrc_protocol.specs.declared.event.Event.{Event};
ghost use Rattle.lrc_protocol.specs.Node.{OptionsRecord};
ghost use Rattle.lrc_protocol.specs.Run.{World, run_of};

/// In every run the time of an act has an entry of at least k for a node exactly if the act that closes that node's
/// interval k is this act or happens before it. For a node other than the acting one: exactly if the closing act
/// happens before this act.
pub fn time_is_what_happens_before()
    ensures any { (program : Program) (nodes : ℕ) (options : OptionsRecord) (events : List Event)
        (world : World)
        (j node : ℕ) (deed : Deed) (q k : ℕ) → run_of program nodes options events ≡ Some world
        → Does world.acts j node deed → 1 ≤ k
        → k ≤ entry (time_at world.times j) q ↔ IsClosedBy world.acts q k j }
    ensures other { (program : Program) (nodes : ℕ) (options : OptionsRecord) (events : List Event)
        (world : World)
        (j node : ℕ) (deed : Deed) (q k : ℕ) → run_of program nodes options events ≡ Some world
        → Does world.acts j node deed
        → q ≢ node → 1 ≤ k
        → k ≤ entry (time_at world.times j) q
        ↔ ((i : ℕ) × ClosesAt world.acts q k i × HappensBefore world.acts i j) }
{}

/// In every run, for acts of two different nodes, the first happens before the second exactly if the second's time has,
/// for the first's node, an entry of at least the first's interval. If one act happens before another, the later time
/// covers the earlier.
pub fn order_of_acts_is_seen_in_times()
    ensures acts { (program : Program) (nodes : ℕ) (options : OptionsRecord) (events : List Event)
        (world : World)
        (i j p q : ℕ) (d e : Deed) → run_of program nodes options events ≡ Some world → p ≢ q
        → Does world.acts i p d → Does world.acts j q e
        → HappensBefore world.acts i j
        ↔ (interval_at world.acts p i ≤ entry (time_at world.times j) p) }
    ensures rise { (program : Program) (nodes : ℕ) (options : OptionsRecord) (events : List Event)
        (world : World)
        (i j : ℕ) → run_of program nodes options events ≡ Some world → HappensBefore world.acts i j
        → Covers (time_at world.times j) (time_at world.times i) }
{}

/// In every run two accesses of different nodes are unordered exactly if neither's time covers the other's interval.
/// The races named of the acts are exactly those between two such segments; a segment is an interval with an access,
/// and the time in it.
pub fn races_are_seen_in_times()
    ensures unordered { (program : Program) (nodes : ℕ) (options : OptionsRecord)
        (events : List Event) (world : World)
        (i p j q v w : ℕ) → run_of program nodes options events ≡ Some world → p ≢ q
        → Accesses world.acts i p v → Accesses world.acts j q w
        → ((¬ HappensBefore world.acts i j) × (¬ HappensBefore world.acts j i))
        ↔ AreUnknown world.acts world.times i p j q }
    ensures named { (program : Program) (nodes : ℕ) (options : OptionsRecord) (events : List Event)
        (world : World)
        (race : Race) → run_of program nodes options events ≡ Some world
        → IsNamedRace world.acts race ↔ IsRaceOfSegments world.acts world.times race }
{}

/// In every run, take two acts, and count for each the departs of its node before it. If the first act has fewer and is
/// no depart itself, it happens before the second, and the second's time covers its interval.
pub fn earlier_epoch_is_covered()
    ensures before { (program : Program) (nodes : ℕ) (options : OptionsRecord) (events : List Event)
        (world : World)
        (i j p q : ℕ) (d e : Deed) → run_of program nodes options events ≡ Some world
        → Does world.acts i p d → is_depart d ≡ false
        → Does world.acts j q e → departs_before world.acts p i < departs_before world.acts q j
        → HappensBefore world.acts i j }
    ensures covered { (program : Program) (nodes : ℕ) (options : OptionsRecord)
        (events : List Event) (world : World)
        (i j p q : ℕ) (d e : Deed) → run_of program nodes options events ≡ Some world
        → Does world.acts i p d → is_depart d ≡ false
        → Does world.acts j q e → departs_before world.acts p i < departs_before world.acts q j
        → interval_at world.acts p i ≤ entry (time_at world.times j) p }
{}
