// What holds of the locks in every run: where their tokens are, who holds them, and what an acquire learns. Each function is a
// theorem: its body is empty, and its clauses are the law.

ghost use Rattle.std.specs.Prelude.{◌≡◌, ◌↔◌, ℕ, ◌+◌, ◌<◌, true, List, Some, length, slice_get};
ghost use Rattle.lrc_program.specs.declared.Program.{Program};
ghost use Rattle.lrc_trace.specs.Synchronization.{Holds};
ghost use Rattle.lrc_clock.specs.Times.{released_time};
ghost use Rattle.lrc_envelope.specs.Envelope.{EnvelopeRecord};
ghost use Rattle.lrc_envelope.specs.Records.{LockRequestRecord, LockForwardRecord, LockGrantRecord};
ghost use Rattle.lrc_envelope.specs.declared.message.Message.TheVariants.{LockRequest, LockForward, LockGrant};
ghost use Rattle.lrc_lock.specs.declared.state.LockState.TheVariants.{Free};
ghost use Rattle.lrc_lock.specs.Held.{lock_at, is_held};
ghost use Rattle.lrc_protocol.specs.declared.event.Event.{Event};
ghost use Rattle.lrc_protocol.specs.Node.{awaits_grant, OptionsRecord};
ghost use Rattle.lrc_protocol.specs.Follows.{is_expected};
ghost use Rattle.lrc_protocol.specs.Run.{Logged, World, run_of};
ghost use Rattle.lrc_protocol.specs.Follows.{pending};
ghost use Rattle.lrc_order_laws.specs.Tokens.{grants_of_lock, tokens_at_nodes};
ghost use Rattle.lrc_order_laws.specs.LockLines.{KeepsLocks};

/// In every run with at least one node each lock has exactly one token. Either it is at one node, free or held, and no
/// grant of the lock is pending; or it is at no node, and exactly one grant is pending. (The lock's token in
/// TreadMarks: Keleher, Cox, Dwarkadas and Zwaenepoel 1994.)
pub fn each_lock_has_one_token()
    ensures { (program : Program) (nodes : ℕ) (options : OptionsRecord) (events : List Event)
        (world : World) (lock : ℕ)
        → run_of program nodes options events ≡ Some world → 0 < nodes → lock < program.locks
        → tokens_at_nodes lock world.nodes + length (grants_of_lock lock (pending world)) ≡ 1 }
{}

/// In every run a lock is acquired only if no node holds it, and released only by its holder. An acquire learns what
/// the lock's last release knew, whichever node made that release.
pub fn locks_are_kept_in_every_run()
    ensures { (program : Program) (nodes : ℕ) (options : OptionsRecord) (events : List Event)
        (world : World)
        → run_of program nodes options events ≡ Some world
        → KeepsLocks nodes world.acts world.times }
{}

/// In every run a node holds a lock by its acts exactly if the lock's token is held there.
pub fn holder_has_the_token()
    ensures { (program : Program) (nodes : ℕ) (options : OptionsRecord) (events : List Event)
        (world : World)
        (lock n : ℕ) (l : Logged) → run_of program nodes options events ≡ Some world
        → lock < program.locks
        → slice_get world.nodes n ≡ Some l
        → Holds world.acts (length world.acts) n lock
        ↔ (is_held (lock_at l.node.locks.held lock) ≡ true) }
{}

/// In every run the time kept with a free token, and the time of a pending grant, is the time of the lock's last
/// release, or zeros before any release.
pub fn tokens_come_with_the_last_release()
    ensures kept { (program : Program) (nodes : ℕ) (options : OptionsRecord) (events : List Event)
        (world : World)
        (lock n : ℕ) (l : Logged) (time : List ℕ) → run_of program nodes options events ≡ Some world
        → lock < program.locks
        → slice_get world.nodes n ≡ Some l → lock_at l.node.locks.held lock ≡ Free time
        → time ≡ released_time nodes world.acts world.times lock (length world.acts) }
    ensures granted { (program : Program) (nodes : ℕ) (options : OptionsRecord)
        (events : List Event) (world : World)
        (lock place : ℕ) (envelope : EnvelopeRecord) (m : LockGrantRecord)
        → run_of program nodes options events ≡ Some world
        → 0 < nodes → lock < program.locks
        → slice_get (grants_of_lock lock (pending world)) place ≡ Some envelope
        → envelope.message ≡ LockGrant m
        → m.time ≡ released_time nodes world.acts world.times lock (length world.acts) }
{}

/// In every run each pending lock message would be accepted by its receiver now. A request and a forward are expected
/// as they are. Of a grant the law says that its receiver awaits exactly that lock, and nothing about the intervals
/// that it carries.
pub fn pending_lock_messages_are_expected()
    ensures requests { (program : Program) (nodes : ℕ) (options : OptionsRecord)
        (events : List Event) (world : World)
        (place : ℕ) (envelope : EnvelopeRecord) (m : LockRequestRecord) (l : Logged)
        → run_of program nodes options events ≡ Some world
        → slice_get (pending world) place ≡ Some envelope → envelope.message ≡ LockRequest m
        → slice_get world.nodes envelope.to ≡ Some l
        → is_expected l.node envelope.from envelope.message ≡ true }
    ensures forwards { (program : Program) (nodes : ℕ) (options : OptionsRecord)
        (events : List Event) (world : World)
        (place : ℕ) (envelope : EnvelopeRecord) (m : LockForwardRecord) (l : Logged)
        → run_of program nodes options events ≡ Some world
        → slice_get (pending world) place ≡ Some envelope → envelope.message ≡ LockForward m
        → slice_get world.nodes envelope.to ≡ Some l
        → is_expected l.node envelope.from envelope.message ≡ true }
    ensures grants { (program : Program) (nodes : ℕ) (options : OptionsRecord) (events : List Event)
        (world : World)
        (place : ℕ) (envelope : EnvelopeRecord) (m : LockGrantRecord) (l : Logged)
        → run_of program nodes options events ≡ Some world
        → slice_get (pending world) place ≡ Some envelope → envelope.message ≡ LockGrant m
        → slice_get world.nodes envelope.to ≡ Some l
        → (m.lock < program.locks) × (awaits_grant m.lock l.node.mail.wait ≡ true) }
{}
