// What always holds of runs along an order. Each function is a theorem: its body is empty, and its clauses are the law.

ghost use Rattle.std.specs.Prelude.{◌≡◌, ◌++◌, ℕ, All, List, Some, length};
ghost use Rattle.lrc_program.specs.declared.Program.{Program};
ghost use Rattle.lrc_trace.specs.declared.act.Act.{Act};
ghost use Rattle.lrc_trace.specs.declared.act.Deed.TheVariants.{Depart};
ghost use Rattle.lrc_protocol.specs.declared.event.Event.{Event};
ghost use Rattle.lrc_protocol.specs.Node.{OptionsRecord};
ghost use Rattle.lrc_protocol.specs.Run.{World, run_of};
ghost use Rattle.lrc_along.specs.Along.{AreDue, BeginsInTurn, IsAlong, IsDelivery, MayStandBehind, NoneDue, Stops};

/// A run of which each event is due goes along the order: its acts are by the nodes of the order's first acts, of their
/// statements, and of their deeds, values aside; and no node has begun an act but that of the order's next one.
pub fn due_events_lead_along()
    ensures { (program : Program) (nodes : ℕ) (options : OptionsRecord) (order : List Act)
        (events : List Event) (world : World)
        → run_of program nodes options events ≡ Some world
        → AreDue program nodes options order events
        → IsAlong program nodes order world.acts × BeginsInTurn program nodes order world }
{}

/// Where no event is due, the run stops: it has made all acts of the order; or the node of the next one stands elsewhere,
/// is not ready, or needs a message where none may come.
pub fn runs_stop_where_no_event_is_due()
    ensures { (program : Program) (nodes : ℕ) (order : List Act) (world : World)
        → IsAlong program nodes order world.acts → NoneDue program nodes order world
        → Stops program nodes order world }
{}

/// Where such a run stops, deliveries of the oldest message make departs alone, and, if the node of the order's next act
/// has begun it, that act. If all acts of the order are made, they make departs alone.
pub fn deliveries_behind_make_departs()
    ensures stands { (program : Program) (nodes : ℕ) (options : OptionsRecord)
        (along behind : List Event) (at end : World)
        → run_of program nodes options along ≡ Some at → All IsDelivery behind
        → run_of program nodes options (along ++ behind) ≡ Some end
        → (more : List Act) × (end.acts ≡ at.acts ++ more) × All (MayStandBehind at) more }
    ensures alone { (program : Program) (nodes : ℕ) (options : OptionsRecord) (order : List Act)
        (along behind : List Event) (at end : World)
        → run_of program nodes options along ≡ Some at
        → AreDue program nodes options order along → length at.acts ≡ length order
        → All IsDelivery behind → run_of program nodes options (along ++ behind) ≡ Some end
        → (more : List Act) × (end.acts ≡ at.acts ++ more)
        × All (λ act. act.deed ≡ Depart) more }
{}
