// Laws of reasons. Each function is a theorem: its body is empty, and its clauses are the law.

ghost use Rattle.std.specs.Prelude.{◌≡◌, ◌≢◌, ℕ, IsTrue, List, Some};
ghost use Rattle.lrc_program.specs.declared.Program.{Program};
ghost use Rattle.lrc_trace.specs.declared.act.Act.{Act};
ghost use Rattle.lrc_trace.specs.declared.act.Deed.{Deed};
ghost use Rattle.lrc_trace.specs.Order.{HappensBefore};
ghost use Rattle.lrc_trace.specs.Run.{Does};
ghost use Rattle.lrc_trace.specs.Synchronization.{IsWellSynchronized};
ghost use Rattle.lrc_clock.specs.Keeping.{KeepsTime};
ghost use Rattle.lrc_clock.specs.Times.{time_at};
ghost use Rattle.lrc_protocol.specs.declared.event.Event.{Event};
ghost use Rattle.lrc_protocol.specs.Node.{OptionsRecord};
ghost use Rattle.lrc_protocol.specs.Run.{World, run_of};
ghost use Rattle.lrc_why.specs.declared.reasons.About.TheVariants.{Gives};
ghost use Rattle.lrc_why.specs.declared.reasons.Gift.{Gift};
ghost use Rattle.lrc_why.specs.declared.reasons.Opponent.{Opponent};
ghost use Rattle.lrc_why.specs.declared.reasons.Parting.{Parting};
ghost use Rattle.lrc_why.specs.declared.reasons.Reasons.{Reasons};
ghost use Rattle.lrc_why.specs.declared.reasons.Relation.TheVariants.{Race};
ghost use Rattle.lrc_why.specs.declared.reasons.Standing.{Standing};
ghost use Rattle.lrc_why.specs.Parting.{IsOpponent};
ghost use Rattle.lrc_why.specs.Spread.{IsFirstTelling, IsTelling};
ghost use Rattle.lrc_why.specs.Whole.{AreReasons, IsRelation};
ghost use Rattle.lrc_why_laws.specs.Apart.{AreApart};

/// Another node can know of an act only through a release or an arrive that the act's node makes there or later. Every
/// node that knows of the act also knows the first of these. This holds of any list of acts.
pub fn who_knows_of_an_act_knows_where_it_is_told()
    ensures told { (run : List Act) (i j p q : ℕ) (a b : Deed) → Does run i p a → Does run j q b
        → p ≢ q → HappensBefore run i j
        → (k : ℕ) × IsTelling run p i k }
    ensures first { (run : List Act) (i j k p q : ℕ) (a b : Deed) → Does run i p a → Does run j q b
        → p ≢ q → HappensBefore run i j
        → IsFirstTelling run p i k → HappensBefore run k j }
{}

/// The time told of an act is its node's vector time just after it. For well-synchronized acts this is the time by the
/// rule of vector times. For every run, whatever its events, it is the time that the node has there.
pub fn the_time_told_is_that_of_the_node()
    ensures acts { (nodes : ℕ) (run : List Act) (times : List (List ℕ)) (position : ℕ)
        (reasons : Reasons)
        → KeepsTime nodes run times → IsWellSynchronized nodes run
        → AreReasons run nodes position reasons
        → reasons.time.items ≡ time_at times position }
    ensures runs { (program : Program) (nodes : ℕ) (options : OptionsRecord) (events : List Event)
        (world : World) (position : ℕ)
        (reasons : Reasons) → run_of program nodes options events ≡ Some world
        → AreReasons world.acts nodes position reasons
        → reasons.time.items ≡ time_at world.times position }
{}

/// In every run, a read gives a value that it may give.
pub fn reads_of_runs_give_what_they_may()
    ensures { (program : Program) (nodes : ℕ) (options : OptionsRecord) (events : List Event)
        (world : World) (position : ℕ)
        (reasons : Reasons) (gift : Gift) → run_of program nodes options events ≡ Some world
        → AreReasons world.acts nodes position reasons → reasons.about ≡ Gives gift
        → IsTrue gift.allowed }
{}

/// In every run, what is told of two racing acts is why they are not ordered: they hold no common lock, their nodes
/// have left equally many barriers, no lock that the node of the earlier act releases after it is acquired after that
/// and before the later act by its node, and the interval of the earlier act is later than what the later one knows of
/// its node.
pub fn what_is_told_of_a_race_is_why_it_is_one()
    ensures opponents { (program : Program) (nodes : ℕ) (options : OptionsRecord)
        (events : List Event) (world : World) (node position : ℕ)
        (opponent : Opponent) → run_of program nodes options events ≡ Some world
        → IsOpponent world.acts node position opponent
        → AreApart world.acts opponent.parting opponent.first opponent.second }
    ensures two { (program : Program) (nodes : ℕ) (options : OptionsRecord) (events : List Event)
        (world : World) (earlier later : ℕ)
        (parting : Parting) (first second : Standing)
        → run_of program nodes options events ≡ Some world
        → IsRelation world.acts earlier later (Race parting first second)
        → AreApart world.acts parting first second }
{}
