// What grants bring, in every run. Each function is a theorem: its body is empty, and its clauses are the law.

ghost use Rattle.std.specs.Prelude.{◌≡◌, ℕ, List, Some, true, Contains, slice_get};
ghost use Rattle.lrc_program.specs.declared.Program.{Program};
ghost use Rattle.lrc_envelope.specs.Envelope.{EnvelopeRecord};
ghost use Rattle.lrc_envelope.specs.Records.{LockGrantRecord};
ghost use Rattle.lrc_envelope.specs.declared.message.Message.TheVariants.{LockGrant};
ghost use Rattle.lrc_protocol.specs.declared.event.Event.{Event};
ghost use Rattle.lrc_protocol.specs.Node.{OptionsRecord};
ghost use Rattle.lrc_protocol.specs.Follows.{is_expected};
ghost use Rattle.lrc_protocol.specs.Run.{Logged, World, run_of};
ghost use Rattle.lrc_protocol.specs.Follows.{pending};

/// In every run each pending grant would be accepted by its receiver now. The receiver awaits the token of that lock.
/// The grant tells, for each node, of exactly the intervals above the receiver's time and up to the grant's time.
/// (Keleher, Cox and Zwaenepoel 1992.)
pub fn grants_are_accepted()
    ensures { (program : Program) (nodes : ℕ) (options : OptionsRecord) (events : List Event)
        (world : World) (e : EnvelopeRecord)
        (m : LockGrantRecord) (l : Logged) → run_of program nodes options events ≡ Some world
        → Contains (pending world) e
        → e.message ≡ LockGrant m → slice_get world.nodes e.to ≡ Some l
        → is_expected l.node e.from e.message ≡ true }
{}
