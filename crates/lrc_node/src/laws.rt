// What the log of a node says of it. Each function is a theorem: its body is empty, and its clauses are the law.

ghost use Rattle.std.specs.Prelude.{◌≡◌, ℕ, Some, [], Ok, Err};
ghost use Rattle.lrc_program.specs.declared.Program.{Program};
ghost use Rattle.lrc_protocol.specs.Node.{Node as NodeRecord, OptionsRecord, fresh_node};
ghost use Rattle.lrc_protocol.specs.Run.{Input, EntryRecord, Logged as LogRecord, logged, logs};
ghost use Rattle.lrc_node.specs.Logged.{LeadsFrom, LogsTo, NotesIn, TracedLog};
ghost use Rattle.lrc_node.specs.Whole.{IsWholeLog};
ghost use Rattle.lrc_node.specs.declared.fault.NodeFault.TheVariants.{NotReady, Unexpected};

/// If a node with its log made all its turns from a fresh node, its trace is the one that these turns make. Each
/// further logged turn keeps this true. A refused input changes nothing.
pub fn logs_lead_on()
    ensures fresh { (program : Program) (nodes : ℕ) (options : OptionsRecord) (me : ℕ)
        → LeadsFrom (fresh_node program nodes options me)
        (record { node = fresh_node program nodes options me; log = [] })
        (record {
          logged = record { node = Some (fresh_node program nodes options me); log = [] };
          trace = record { node = me; size = options.size; segments = [] };
        }) }
    ensures turn { (start : NodeRecord) (l : LogRecord) (old new : TracedLog) (input : Input)
        (came : ℕ) → LeadsFrom start l old
        → LogsTo old.logged input came new.logged (Ok tt) → NotesIn old new (Ok tt)
        → (entry : EntryRecord) × (after : LogRecord) × (logs l input came ≡ logged entry after)
        × LeadsFrom start after new }
    ensures unready { (start : NodeRecord) (l : LogRecord) (old new : TracedLog) (input : Input)
        (came : ℕ) → LeadsFrom start l old
        → LogsTo old.logged input came new.logged (Err NotReady) → NotesIn old new (Err NotReady)
        → LeadsFrom start l new }
    ensures unexpected { (start : NodeRecord) (l : LogRecord) (old new : TracedLog) (input : Input)
        (came : ℕ) → LeadsFrom start l old
        → LogsTo old.logged input came new.logged (Err Unexpected)
        → NotesIn old new (Err Unexpected) → LeadsFrom start l new }
{}

/// The log of a fresh node without turns is whole: its turns are the node's local turns on the inputs that it stores.
/// Each call of `run` and `take` on a node with its log keeps the log whole, whatever the call returns, by its clause
/// `whole`. So a log from which no turn was forgotten is whole when it is handed over.
pub fn fresh_logs_are_whole()
    ensures { (program : Program) (nodes : ℕ) (options : OptionsRecord) (me : ℕ)
        → IsWholeLog program nodes options me (record {
          logged = record { node = Some (fresh_node program nodes options me); log = [] };
          trace = record { node = me; size = options.size; segments = [] };
        }) }
{}
