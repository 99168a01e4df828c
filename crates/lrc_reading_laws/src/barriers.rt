// What messages of barriers bring, in every run. Each function is a theorem: its body is empty, and its clauses are the law.

ghost use Rattle.std.specs.Prelude.{◌≡◌, ℕ, List, Some, true, Contains, slice_get};
ghost use Rattle.lrc_program.specs.declared.Program.{Program};
ghost use Rattle.lrc_envelope.specs.Envelope.{EnvelopeRecord};
ghost use Rattle.lrc_envelope.specs.Records.{ArriveRecord, DepartRecord};
ghost use Rattle.lrc_envelope.specs.declared.message.Message.TheVariants.{Arrive, Depart};
ghost use Rattle.lrc_protocol.specs.declared.event.Event.{Event};
ghost use Rattle.lrc_protocol.specs.Node.{OptionsRecord};
ghost use Rattle.lrc_protocol.specs.Follows.{is_expected};
ghost use Rattle.lrc_protocol.specs.Run.{Logged, World, run_of};
ghost use Rattle.lrc_protocol.specs.Follows.{pending};

/// In every run each pending arrival would be accepted by its receiver, the barrier manager, now. It is that node's
/// next arrival. It tells of exactly the node's own intervals above the last that came with an arrival, and up to the
/// node's time. (Keleher, Cox and Zwaenepoel 1992.)
pub fn arrivals_are_accepted()
    ensures { (program : Program) (nodes : ℕ) (options : OptionsRecord) (events : List Event)
        (world : World) (e : EnvelopeRecord)
        (m : ArriveRecord) (l : Logged) → run_of program nodes options events ≡ Some world
        → Contains (pending world) e
        → e.message ≡ Arrive m → slice_get world.nodes e.to ≡ Some l
        → is_expected l.node e.from e.message ≡ true }
{}

/// In every run each pending departure would be accepted by its receiver now. It comes from node 0, for the episode
/// from which the receiver awaits to depart, and its time covers the receiver's. It tells, for each node, of exactly
/// the intervals above the receiver's time and up to its own. (Keleher, Cox and Zwaenepoel 1992.)
pub fn departures_are_accepted()
    ensures { (program : Program) (nodes : ℕ) (options : OptionsRecord) (events : List Event)
        (world : World) (e : EnvelopeRecord)
        (m : DepartRecord) (l : Logged) → run_of program nodes options events ≡ Some world
        → Contains (pending world) e
        → e.message ≡ Depart m → slice_get world.nodes e.to ≡ Some l
        → is_expected l.node e.from e.message ≡ true }
{}
