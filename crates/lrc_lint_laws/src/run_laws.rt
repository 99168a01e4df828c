// Laws of warnings, in every run of the protocol machine: any program, any number of nodes, any options, any order of delivery.
// These functions do nothing: each contract states a law.

ghost use Rattle.std.specs.Prelude.{◌≡◌, ◌≢◌, ◌≤◌, ◌⊎◌, ℕ, List, Some};
ghost use Rattle.std.specs.List.{Contains};
ghost use Rattle.lrc_program.specs.declared.Program.{Program};
ghost use Rattle.lrc_lang.specs.Grammar.{IsProgram};
ghost use Rattle.lrc_program.specs.Statements.{Expression};
ghost use Rattle.lrc_lang.specs.Token.{Token};
ghost use Rattle.lrc_program.specs.Tree.{program_of};
ghost use Rattle.lrc_trace.specs.declared.act.Cause.TheVariants as causes;
ghost use Rattle.lrc_trace.specs.declared.act.Deed.{Deed};
ghost use Rattle.lrc_trace.specs.declared.act.Deed.TheVariants.{Read, Release, Write};
ghost use Rattle.lrc_trace.specs.Order.{HappensBefore};
ghost use Rattle.lrc_trace.specs.Reading.{AreOrdered, WrittenBefore};
ghost use Rattle.lrc_trace.specs.Run.{Does, IsDone};
ghost use Rattle.lrc_protocol.specs.declared.event.Event.{Event};
ghost use Rattle.lrc_protocol.specs.Node.{OptionsRecord};
ghost use Rattle.lrc_protocol.specs.Run.{World, run_of};
ghost use Rattle.lrc_lint_warned.specs.declared.found.Kind.TheVariants.{DivisionByZero, HeldAlready, LearnsNothing};
ghost use Rattle.lrc_lint_warned.specs.declared.found.Kind.TheVariants.{NeverReleased, NeverWritten, NoSuchLock, NoSuchWord, NotHeld};
ghost use Rattle.lrc_lint_warned.specs.Access.{no_such_lock, no_such_word};
ghost use Rattle.lrc_lint_warned.specs.Blocks.{learning_nothing};
ghost use Rattle.lrc_lint_warned.specs.Held.{held_already, not_held};
ghost use Rattle.lrc_lint_warned.specs.Locks.{never_released};
ghost use Rattle.lrc_lint_warned.specs.Operations.{division_by_zero};
ghost use Rattle.lrc_lint_warned.specs.Words.{never_written};
ghost use Rattle.lrc_lint_laws.specs.Comes.{nodes_of_text, paths_of_text, statements_of_text};
ghost use Rattle.lrc_lint_laws.specs.Loops.{GoesRound, Learns};
ghost use Rattle.lrc_lint_laws.specs.Traps.{IsPartAt, trap_of_access};
ghost use Rattle.lrc_lint_laws.specs.Trapping.{TrapsInRuns, TrapsInRunsBehind};

/// If a warning says that a word is read and never written, no node writes it in any run, and each read of it gives 0.
pub fn runs_give_zero_for_a_word_that_is_never_written()
    ensures unwritten { (program : Program) (tokens : List Token) (at word : ℕ)
        → IsProgram (program_of program) tokens
        → Contains (never_written program.words (statements_of_text program tokens))
        (record { at = at; kind = NeverWritten word })
        → (nodes : ℕ) (options : OptionsRecord) (events : List Event) (world : World)
        → run_of program nodes options events ≡ Some world
        → (i value : ℕ) → ¬ IsDone world.acts i (Write word value) }
    ensures zero { (program : Program) (tokens : List Token) (at word : ℕ)
        → IsProgram (program_of program) tokens
        → Contains (never_written program.words (statements_of_text program tokens))
        (record { at = at; kind = NeverWritten word })
        → (nodes : ℕ) (options : OptionsRecord) (events : List Event) (world : World)
        → run_of program nodes options events ≡ Some world
        → (j value : ℕ) → IsDone world.acts j (Read word value) → value ≡ 0 }
{}

/// If a warning says that a lock is never released, no node releases it in any run.
pub fn runs_release_no_lock_that_is_never_released()
    ensures { (program : Program) (tokens : List Token) (at lock : ℕ)
        → IsProgram (program_of program) tokens
        → Contains (never_released program.locks (statements_of_text program tokens))
        (record { at = at; kind = NeverReleased lock })
        → (nodes : ℕ) (options : OptionsRecord) (events : List Event) (world : World)
        → run_of program nodes options events ≡ Some world
        → (i : ℕ) → ¬ IsDone world.acts i (Release lock) }
{}

/// Let a warning say that a loop learns of no write of another node. In any run, let a node reach the loop at position
/// i and make an act of it at position j, without leaving the loop between. Then the node acquires, arrives and departs
/// at no position from i to j. So an act of another node that happens before the act at j already happens before the
/// act at i.
///
/// A read at j gives 0, or the value of a write of the node itself, or of a write that happens before i. If the writes
/// that happen before an earlier read of the word in the loop are ordered, and the node itself wrote none in between,
/// the read at j gives what that earlier read gave.
pub fn runs_know_no_more_by_a_loop_that_learns_nothing()
    ensures quiet { (program : Program) (tokens : List Token) (at : ℕ)
        → Contains (learning_nothing (statements_of_text program tokens))
        (record { at = at; kind = LearnsNothing })
        → (nodes : ℕ) (options : OptionsRecord) (events : List Event) (world : World)
        → run_of program nodes options events ≡ Some world
        → (node i j : ℕ) → GoesRound program tokens nodes world.acts node at i j
        → (k : ℕ) (deed : Deed) → i ≤ k → k ≤ j → Does world.acts k node deed → ¬ Learns deed }
    ensures known { (program : Program) (tokens : List Token) (at : ℕ)
        → Contains (learning_nothing (statements_of_text program tokens))
        (record { at = at; kind = LearnsNothing })
        → (nodes : ℕ) (options : OptionsRecord) (events : List Event) (world : World)
        → run_of program nodes options events ≡ Some world
        → (node i j : ℕ) → GoesRound program tokens nodes world.acts node at i j
        → (k other : ℕ) (before deed : Deed) → Does world.acts k other before → other ≢ node
        → Does world.acts j node deed
        → HappensBefore world.acts k j → HappensBefore world.acts k i }
    ensures read { (program : Program) (tokens : List Token) (at : ℕ)
        → Contains (learning_nothing (statements_of_text program tokens))
        (record { at = at; kind = LearnsNothing })
        → (nodes : ℕ) (options : OptionsRecord) (events : List Event) (world : World)
        → run_of program nodes options events ≡ Some world
        → (node i j : ℕ) → GoesRound program tokens nodes world.acts node at i j
        → (word value : ℕ) → Does world.acts j node (Read word value)
        → (value ≡ 0) ⊎ ((k : ℕ) × WrittenBefore world.acts j word k value
        × (Does world.acts k node (Write word value) ⊎ HappensBefore world.acts k i)) }
    ensures same_value { (program : Program) (tokens : List Token) (at : ℕ)
        → Contains (learning_nothing (statements_of_text program tokens))
        (record { at = at; kind = LearnsNothing })
        → (nodes : ℕ) (options : OptionsRecord) (events : List Event) (world : World)
        → run_of program nodes options events ≡ Some world
        → (node i j : ℕ) → GoesRound program tokens nodes world.acts node at i j
        → (k word earlier value : ℕ) → i ≤ k → k ≤ j → Does world.acts k node (Read word earlier)
        → Does world.acts j node (Read word value)
        → ((l own : ℕ) → k ≤ l → l ≤ j → ¬ Does world.acts l node (Write word own))
        → AreOrdered world.acts k word → earlier ≡ value }
{}

/// If a warning says that a word does not exist, in every run a node that reaches the shared access traps: that is its
/// next deed. For a write the value is evaluated before: if it divides by zero, that is the trap.
pub fn runs_trap_at_an_access_of_no_word()
    ensures { (program : Program) (tokens : List Token) (at word : ℕ)
        → Contains (no_such_word program.words (statements_of_text program tokens))
        (record { at = at; kind = NoSuchWord word })
        → TrapsInRunsBehind program tokens at trap_of_access }
{}

/// If a warning says that a lock does not exist, in every run a node that reaches the acquire or release traps.
pub fn runs_trap_at_an_acquire_or_a_release_of_no_lock()
    ensures { (program : Program) (tokens : List Token) (at lock : ℕ)
        → Contains (no_such_lock program.locks (statements_of_text program tokens))
        (record { at = at; kind = NoSuchLock lock })
        → TrapsInRunsBehind program tokens at (λ walk. causes.LockOutOfRange) }
{}

/// A warning of a division by zero is at the sign of a part of a statement, and in every run each node that reaches
/// that statement traps there.
pub fn runs_trap_at_a_division_by_the_constant_zero()
    ensures { (program : Program) (tokens : List Token) (at : ℕ)
        → IsProgram (program_of program) tokens
        → Contains (division_by_zero (nodes_of_text program tokens))
        (record { at = at; kind = DivisionByZero })
        → (part : Expression) × (from : ℕ) × IsPartAt program tokens at part from
        × TrapsInRuns program tokens from (λ walk. causes.DivisionByZero) }
{}

/// If a warning says that a lock is held already, in every run a node that reaches this acquire traps.
pub fn runs_trap_at_an_acquire_of_a_lock_that_is_held_already()
    ensures { (program : Program) (tokens : List Token) (at lock : ℕ)
        → Contains (held_already program.locks (statements_of_text program tokens)
        (paths_of_text program))
        (record { at = at; kind = HeldAlready lock })
        → TrapsInRuns program tokens at (λ walk. causes.LockHeld) }
{}

/// If a warning says that a lock is not held, in every run a node that reaches this release traps.
pub fn runs_trap_at_a_release_of_a_lock_that_is_not_held()
    ensures { (program : Program) (tokens : List Token) (at lock : ℕ)
        → Contains (not_held program.locks (statements_of_text program tokens)
        (paths_of_text program))
        (record { at = at; kind = NotHeld lock })
        → TrapsInRuns program tokens at (λ walk. causes.LockNotHeld) }
{}
