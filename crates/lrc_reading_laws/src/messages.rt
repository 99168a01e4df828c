// What holds of all messages, in every run. Each function is a theorem: its body is empty, and its clauses are the law.

ghost use Rattle.std.specs.Prelude.{◌≡◌, ◌≢◌, ◌<◌, ℕ, List, Some, true, Contains, slice_get};
ghost use Rattle.lrc_program.specs.declared.Program.{Program};
ghost use Rattle.lrc_envelope.specs.Envelope.{EnvelopeRecord};
ghost use Rattle.lrc_protocol.specs.declared.event.Event.{Event};
ghost use Rattle.lrc_protocol.specs.Node.{OptionsRecord};
ghost use Rattle.lrc_protocol.specs.Turn.{take_turn, unexpected};
ghost use Rattle.lrc_protocol.specs.Follows.{is_expected};
ghost use Rattle.lrc_protocol.specs.Run.{Logged, World, Flying, run_of};
ghost use Rattle.lrc_protocol.specs.Follows.{pending};

/// In every run no message is unexpected, of whatever kind and in whatever order it comes. Each pending message would
/// be accepted by its receiver now. No message in flight, not even one that was taken before, is refused as unexpected.
pub fn no_taken_message_is_unexpected()
    ensures pending { (program : Program) (nodes : ℕ) (options : OptionsRecord)
        (events : List Event) (world : World) (e : EnvelopeRecord)
        (l : Logged) → run_of program nodes options events ≡ Some world → Contains (pending world) e
        → slice_get world.nodes e.to ≡ Some l → is_expected l.node e.from e.message ≡ true }
    ensures in_flight { (program : Program) (nodes : ℕ) (options : OptionsRecord)
        (events : List Event) (world : World) (place : ℕ)
        (flying : Flying) (l : Logged) → run_of program nodes options events ≡ Some world
        → slice_get world.flight place ≡ Some flying
        → slice_get world.nodes flying.envelope.to ≡ Some l
        → take_turn l.node flying.envelope ≢ unexpected }
{}

/// In every run each message in flight goes from one of the nodes to one of the nodes, whatever its kind, and even if
/// it was taken before.
pub fn messages_go_from_node_to_node()
    ensures { (program : Program) (nodes : ℕ) (options : OptionsRecord) (events : List Event)
        (world : World) (place : ℕ)
        (flying : Flying) → run_of program nodes options events ≡ Some world
        → slice_get world.flight place ≡ Some flying
        → (flying.envelope.from < nodes) × (flying.envelope.to < nodes) }
{}
