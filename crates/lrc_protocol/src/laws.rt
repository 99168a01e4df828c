// What the definitions have in common. Each function is a theorem: its body is empty, and its clauses are the law.

ghost use Rattle.std.specs.Prelude.{◌≡◌, ◌≢◌, ℕ, ◌<◌, true, false, List, length, map, Some, None, slice_get, slice_index};
ghost use Rattle.std.specs.List.{range_with_len};
ghost use Rattle.lrc_program.specs.declared.Program.{Program};
ghost use Rattle.lrc_trace.specs.declared.act.Cause.{Cause};
ghost use Rattle.lrc_exec.specs.Meaning.{Thread, ends, next_of};
ghost use Rattle.lrc_exec.specs.Plain.{start_of};
ghost use Rattle.lrc_envelope.specs.Envelope.{EnvelopeRecord};
ghost use Rattle.lrc_exec.specs.Follows.{deeds_of, FollowsText};
ghost use Rattle.lrc_protocol.specs.declared.event.Event.{Event};
ghost use Rattle.lrc_protocol.specs.declared.event.Event.TheVariants.{Run, Deliver, Repeat};
ghost use Rattle.lrc_protocol.specs.Node.{going, trapped, ended, is_idle, Node, OptionsRecord};
ghost use Rattle.lrc_protocol.specs.Follows.{thread_of};
ghost use Rattle.lrc_protocol.specs.Turn.{TurnRecord, done, not_ready, unexpected, run_turn, take_turn, empty_turn};
ghost use Rattle.lrc_protocol.specs.Turn.{is_ready, is_addressed, is_repeat};
ghost use Rattle.lrc_protocol.specs.Run.{Input, Logged, outcome_of, World, Flying, event_on, run_of};
ghost use Rattle.lrc_protocol.specs.Follows.{local};
ghost use Rattle.lrc_protocol.specs.Rules.{TurnRule};
ghost use Rattle.lrc_protocol.specs.Follows.{MakesTo, inputs_of, turns_of, deeds_in, numbers_to, sent_in};

/// A node makes a turn exactly if one of the protocol's rules allows it. If that rule's conditions hold, the turn and
/// the node after it are those of the rule.
pub fn turns_are_made_by_the_rules()
    ensures made { (node : Node) (input : Input) (turn : TurnRecord) (after : Node)
        → outcome_of node input ≡ done turn after → TurnRule node input turn after }
    ensures only { (node : Node) (input : Input) (turn : TurnRecord) (after : Node)
        → TurnRule node input turn after → outcome_of node input ≡ done turn after }
{}

/// A node is not ready if it waits, has stopped, or has used its steps before the end of the text. A node that an event
/// names goes on exactly if it is ready.
pub fn waiting_stopped_and_spent_nodes_are_not_ready()
    ensures waits { (node : Node) → is_idle node.mail.wait ≡ false → is_ready node ≡ false }
    ensures trapped { (node : Node) (cause : Cause) → node.course ≡ trapped cause
        → is_ready node ≡ false }
    ensures ended { (node : Node) → node.course ≡ ended → is_ready node ≡ false }
    ensures spent { (node : Node) (thread : Thread) → node.course ≡ going thread → node.left ≡ 0
        → next_of thread ≢ ends → is_ready node ≡ false }
    ensures refuses { (node : Node) → is_ready node ≡ false → run_turn node ≡ not_ready }
    ensures goes_on { (node : Node) → is_ready node ≡ true → run_turn node ≢ not_ready }
{}

/// An event changes nothing if it names no node, a node that is not ready, no message in flight, or a message that its
/// receiver does not expect.
pub fn skipped_events_change_nothing()
    ensures no_node { (world : World) (n : ℕ) → slice_get world.nodes n ≡ None
        → event_on world (Run n) ≡ Some world }
    ensures unready { (world : World) (n : ℕ) (l : Logged) → slice_get world.nodes n ≡ Some l
        → is_ready l.node ≡ false → event_on world (Run n) ≡ Some world }
    ensures no_message { (world : World) (place : ℕ) → slice_get world.flight place ≡ None
        → (event_on world (Deliver place) ≡ Some world)
        × (event_on world (Repeat place) ≡ Some world) }
    ensures refused { (world : World) (place : ℕ) (flying : Flying) (l : Logged)
        → slice_get world.flight place ≡ Some flying
        → slice_get world.nodes flying.envelope.to ≡ Some l
        → take_turn l.node flying.envelope ≡ unexpected
        → (event_on world (Deliver place) ≡ Some world)
        × (event_on world (Repeat place) ≡ Some world) }
{}

/// A message that its receiver has taken before makes an empty turn, which does not change the node. In a run it
/// changes no node's state, no act and no time, whether it stays in flight or leaves it.
pub fn repeats_change_nothing_but_the_log()
    ensures turn { (node : Node) (envelope : EnvelopeRecord) → is_addressed node envelope ≡ true
        → is_repeat node envelope ≡ true → take_turn node envelope ≡ done empty_turn node }
    ensures run { (world after : World) (place : ℕ) (flying : Flying) (l : Logged)
        → slice_get world.flight place ≡ Some flying
        → slice_get world.nodes flying.envelope.to ≡ Some l
        → is_addressed l.node flying.envelope ≡ true
        → is_repeat l.node flying.envelope ≡ true → event_on world (Repeat place) ≡ Some after
        → (after.acts ≡ world.acts) × (after.times ≡ world.times)
        × (map (λ (l : Logged). l.node) after.nodes ≡ map (λ (l : Logged). l.node) world.nodes) }
    ensures delivered { (world after : World) (place : ℕ) (flying : Flying) (l : Logged)
        → slice_get world.flight place ≡ Some flying
        → slice_get world.nodes flying.envelope.to ≡ Some l
        → is_addressed l.node flying.envelope ≡ true
        → is_repeat l.node flying.envelope ≡ true → event_on world (Deliver place) ≡ Some after
        → (after.acts ≡ world.acts) × (after.times ≡ world.times)
        × (map (λ (l : Logged). l.node) after.nodes ≡ map (λ (l : Logged). l.node) world.nodes) }
{}

/// In every run each node's state and turns are those that its own inputs give, whatever the other nodes did. The
/// node's acts in the run are those of its turns.
pub fn nodes_depend_on_their_own_inputs_alone()
    ensures turns { (program : Program) (nodes : ℕ) (options : OptionsRecord) (events : List Event)
        (world : World)
        (n : ℕ) (l : Logged) → run_of program nodes options events ≡ Some world
        → slice_get world.nodes n ≡ Some l
        → local program nodes options n (inputs_of l.log)
        ≡ Some (record { node = l.node; turns = turns_of l.log }) }
    ensures acts { (program : Program) (nodes : ℕ) (options : OptionsRecord) (events : List Event)
        (world : World)
        (n : ℕ) (l : Logged) → run_of program nodes options events ≡ Some world
        → slice_get world.nodes n ≡ Some l
        → deeds_of n world.acts ≡ deeds_in (turns_of l.log) }
{}

/// In every run the messages from one node to another have consecutive numbers from `first` on, as many as were sent.
pub fn messages_are_numbered_one_after_another()
    ensures { (program : Program) (nodes : ℕ) (options : OptionsRecord) (events : List Event)
        (world : World)
        (n to : ℕ) (l : Logged) → run_of program nodes options events ≡ Some world
        → slice_get world.nodes n ≡ Some l
        → to < nodes
        → numbers_to to (sent_in (turns_of l.log))
        ≡ range_with_len options.first (slice_index l.node.mail.sent to) }
{}

/// In every run the acts follow the text, and each node's thread is where its deeds lead.
pub fn acts_follow_the_text()
    ensures text { (program : Program) (nodes : ℕ) (options : OptionsRecord) (events : List Event)
        (world : World)
        → run_of program nodes options events ≡ Some world → FollowsText program nodes world.acts }
    ensures threads { (program : Program) (nodes : ℕ) (options : OptionsRecord)
        (events : List Event) (world : World)
        (n : ℕ) (l : Logged) → run_of program nodes options events ≡ Some world
        → slice_get world.nodes n ≡ Some l
        → MakesTo (Some (start_of program nodes n)) (deeds_of n world.acts)
        (thread_of l.node.course) }
{}

/// In every run each act has exactly one time. (The law `times_are_those_of_the_nodes` of lrc_order_laws says which: the
/// time of the acting node just after the act.)
pub fn each_act_has_its_time()
    ensures { (program : Program) (nodes : ℕ) (options : OptionsRecord) (events : List Event)
        (world : World)
        → run_of program nodes options events ≡ Some world
        → length world.times ≡ length world.acts }
{}
