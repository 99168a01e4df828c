// What holds of woven events. Each function is a theorem: its body is empty, and its clause is the law.

ghost use Rattle.std.specs.Prelude.{◌≡◌, ℕ, List, Some, length, map, slice_get};
ghost use Rattle.lrc_program.specs.declared.Program.{Program};
ghost use Rattle.lrc_protocol.specs.declared.event.Event.{Event};
ghost use Rattle.lrc_protocol.specs.Node.{OptionsRecord};
ghost use Rattle.lrc_protocol.specs.Run.{EntryRecord, World, Flying, run_of};
ghost use Rattle.lrc_post.specs.Mailbox.{MailboxRecord};
ghost use Rattle.lrc_wire.specs.Spelling.{bytes_of};
ghost use Rattle.lrc_weave.specs.Logs.{AreLogs, sent_to};
ghost use Rattle.lrc_weave.specs.Matched.{AreAlike, bytes_put_by};
ghost use Rattle.lrc_weave.specs.Woven.{AreWoven};

/// Events that make all turns of the logs of a program's nodes make a run with exactly these logs.
pub fn woven_events_make_the_run_of_the_logs()
    ensures { (program : Program) (nodes : ℕ) (options : OptionsRecord)
        (logs : List (List EntryRecord)) (events : List Event) (flight : List Flying)
        → AreLogs program nodes options logs → AreWoven logs events flight
        → (world : World) × (run_of program nodes options events ≡ Some world)
        × (map (λ l. l.log) world.nodes ≡ logs) × (world.flight ≡ flight) }
{}

/// If the logs of a program's nodes and their mailboxes record the same messages, there are events that make all turns
/// of the logs, each in its place. So these events make a run with exactly these logs.
pub fn logs_that_match_their_mailboxes_can_be_woven()
    ensures { (program : Program) (nodes : ℕ) (options : OptionsRecord)
        (logs : List (List EntryRecord)) (wires : List MailboxRecord)
        → AreLogs program nodes options logs → AreAlike logs wires → length wires ≡ length logs
        → (events : List Event) × (flight : List Flying) × AreWoven logs events flight }
{}

/// If the logs of nodes and their mailboxes record the same messages, the post was given what nodes write: what a node
/// put into a mailbox are, message by message, the bytes that `encode` writes of what its log sends to the owner.
pub fn the_post_was_given_what_nodes_write()
    ensures { (logs : List (List EntryRecord)) (wires : List MailboxRecord) → AreAlike logs wires
        → (owner node : ℕ) (mailbox : MailboxRecord) (log : List EntryRecord)
        → slice_get wires owner ≡ Some mailbox → slice_get logs node ≡ Some log
        → bytes_put_by node mailbox.history
        ≡ map (λ flying. bytes_of flying.envelope) (sent_to owner log) }
{}
