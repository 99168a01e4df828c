// Laws of warnings. These functions do nothing: each contract states a law.
//
// Where nodes come, acts lead them, whatever the reads among them give: acts of the plain machine, of the nodes, or of any memory.

ghost use Rattle.std.specs.Prelude.{◌≡◌, ◌≢◌, ◌<◌, ◌≤◌, ◌⊎◌, ◌↔◌, ◌++◌, ℕ, Bool, true, false, List, Some, slice_index, slice_set};
ghost use Rattle.std.specs.List.{Contains};
ghost use Rattle.lrc_program.specs.declared.Expression as code;
ghost use Rattle.lrc_program.specs.declared.Program.{Program};
ghost use Rattle.lrc_lang.specs.Grammar.{IsProgram};
ghost use Rattle.lrc_program.specs.Statements.{Expression, expression_of};
ghost use Rattle.lrc_lang.specs.Token.{Token};
ghost use Rattle.lrc_program.specs.Tree.{program_of};
ghost use Rattle.lrc_trace.specs.declared.act.Act.{Act};
ghost use Rattle.lrc_trace.specs.declared.act.Cause.TheVariants as causes;
ghost use Rattle.lrc_trace.specs.declared.act.Deed.{Deed};
ghost use Rattle.lrc_trace.specs.declared.act.Deed.TheVariants.{Read, Release, Write};
ghost use Rattle.lrc_trace.specs.Order.{HappensBefore};
ghost use Rattle.lrc_trace.specs.Reading.{AreOrdered, ReadsLazily, WrittenBefore};
ghost use Rattle.lrc_trace.specs.Run.{Does, IsDone};
ghost use Rattle.lrc_exec.specs.Condition.{condition_holds};
ghost use Rattle.lrc_exec.specs.Meaning.{Thread, holds, one_if, value_in};
ghost use Rattle.lrc_exec.specs.Plain.{plain};
ghost use Rattle.lrc_exec.specs.Follows.{FollowsText, Makes};
ghost use Rattle.lrc_lint_warned.specs.declared.found.Kind.TheVariants.{BelowZero, DivisionByZero, HeldAlready, HeldAtBarrier, LearnsNothing};
ghost use Rattle.lrc_lint_warned.specs.declared.found.Kind.TheVariants.{NeverRead, NeverReleased};
ghost use Rattle.lrc_lint_warned.specs.declared.found.Kind.TheVariants.{NeverSet, NeverWritten, NoSuchLock, NoSuchWord, NotHeld, UnchangedCondition};
ghost use Rattle.lrc_lint_warned.specs.Access.{no_such_lock, no_such_word};
ghost use Rattle.lrc_lint_warned.specs.Blocks.{learning_nothing, unchanged_conditions};
ghost use Rattle.lrc_lint_warned.specs.Held.{held_already, held_at_barrier, not_held};
ghost use Rattle.lrc_lint_warned.specs.Locks.{never_released};
ghost use Rattle.lrc_lint_warned.specs.Names.{never_read, never_set};
ghost use Rattle.lrc_lint_warned.specs.Operations.{below_zero, division_by_zero};
ghost use Rattle.lrc_lint_warned.specs.Words.{never_written};
ghost use Rattle.lrc_lint_laws.specs.Comes.{IsAt, TrapsAt, nodes_of_text, paths_of_text, statements_of_text, thread_to, walk_to};
ghost use Rattle.lrc_lint_laws.specs.Loops.{GoesRound, IsInLoop, Learns, condition_value};
ghost use Rattle.lrc_lint_laws.specs.Traps.{IsPartAt, TrapsBehind, trap_of_access};

/// If a warning says that a name is read and never set, the name has the value 0 in every thread, wherever acts lead
/// the thread.
pub fn a_name_that_is_never_set_is_zero()
    ensures { (program : Program) (tokens : List Token) (at name : ℕ)
        → IsProgram (program_of program) tokens
        → Contains (never_set (nodes_of_text program tokens) (statements_of_text program tokens))
        (record { at = at; kind = NeverSet name })
        → (nodes : ℕ) (acts : List Act) (node : ℕ)
        → slice_index (thread_to program tokens nodes acts node).privates name ≡ 0 }
{}

/// If a warning says that a word does not exist, a node that reaches the shared access traps. For a write the value is
/// evaluated before: if it divides by zero, that is the trap.
pub fn an_access_of_no_word_traps()
    ensures { (program : Program) (tokens : List Token) (at word : ℕ)
        → Contains (no_such_word program.words (statements_of_text program tokens))
        (record { at = at; kind = NoSuchWord word })
        → TrapsBehind program tokens at trap_of_access }
{}

/// If a warning says that a lock does not exist, a node that reaches the acquire or release traps.
pub fn an_acquire_or_a_release_of_no_lock_traps()
    ensures { (program : Program) (tokens : List Token) (at lock : ℕ)
        → Contains (no_such_lock program.locks (statements_of_text program tokens))
        (record { at = at; kind = NoSuchLock lock })
        → TrapsBehind program tokens at (λ walk. causes.LockOutOfRange) }
{}

/// A warning of a division by zero is at the sign of a part of a statement, and each node that reaches that statement
/// traps there.
pub fn a_division_by_the_constant_zero_traps()
    ensures { (program : Program) (tokens : List Token) (at : ℕ)
        → IsProgram (program_of program) tokens
        → Contains (division_by_zero (nodes_of_text program tokens))
        (record { at = at; kind = DivisionByZero })
        → (part : Expression) × (from : ℕ) × IsPartAt program tokens at part from
        × ((nodes : ℕ) → TrapsAt program tokens nodes from (λ walk. causes.DivisionByZero)) }
{}

/// If a warning says that a comparison is always 0, or always 1, it has no other value in any thread.
pub fn a_comparison_with_zero_says_nothing()
    ensures { (program : Program) (tokens : List Token) (at : ℕ) (always : Bool)
        → IsProgram (program_of program) tokens
        → Contains (below_zero (nodes_of_text program tokens))
        (record { at = at; kind = BelowZero always })
        → (part : Expression) × (from : ℕ) × IsPartAt program tokens at part from
        × ((thread : Thread) (e : code.Expression) (value : ℕ) → expression_of e ≡ part
        → value_in thread e ≡ Some value → value ≡ one_if always) }
{}

/// If a warning says that a lock is held already, each node that reaches the place holds it, and traps.
pub fn a_lock_that_is_held_already_is_held()
    ensures { (program : Program) (tokens : List Token) (at lock : ℕ)
        → Contains (held_already program.locks (statements_of_text program tokens)
        (paths_of_text program))
        (record { at = at; kind = HeldAlready lock })
        → (nodes : ℕ)
        → ((acts : List Act) (node : ℕ) → IsAt (walk_to program tokens nodes acts node) at
        → holds (thread_to program tokens nodes acts node) lock ≡ true)
        × TrapsAt program tokens nodes at (λ walk. causes.LockHeld) }
{}

/// If a warning says that a lock is not held, no node that reaches the place holds it, and each traps.
pub fn a_lock_that_is_not_held_is_not_held()
    ensures { (program : Program) (tokens : List Token) (at lock : ℕ)
        → Contains (not_held program.locks (statements_of_text program tokens)
        (paths_of_text program))
        (record { at = at; kind = NotHeld lock })
        → (nodes : ℕ)
        → ((acts : List Act) (node : ℕ) → IsAt (walk_to program tokens nodes acts node) at
        → holds (thread_to program tokens nodes acts node) lock ≡ false)
        × TrapsAt program tokens nodes at (λ walk. causes.LockNotHeld) }
{}

/// If a warning says that a lock is held at a barrier, each node that reaches the barrier holds it.
pub fn a_lock_that_is_held_at_a_barrier_is_held()
    ensures { (program : Program) (tokens : List Token) (at lock : ℕ)
        → Contains (held_at_barrier program.locks (statements_of_text program tokens)
        (paths_of_text program))
        (record { at = at; kind = HeldAtBarrier lock })
        → (nodes : ℕ) (acts : List Act) (node : ℕ)
        → IsAt (walk_to program tokens nodes acts node) at
        → holds (thread_to program tokens nodes acts node) lock ≡ true }
{}

/// If a warning says that a word is read and never written, no act that follows the text writes it. So each read of the
/// word gives 0 in every run of the plain machine, and in every run that reads lazily, as the runs of the nodes do.
pub fn a_word_that_is_never_written_is_zero()
    ensures unwritten { (program : Program) (tokens : List Token) (at word : ℕ)
        → IsProgram (program_of program) tokens
        → Contains (never_written program.words (statements_of_text program tokens))
        (record { at = at; kind = NeverWritten word })
        → (nodes : ℕ) (acts : List Act) (i node value : ℕ) → FollowsText program nodes acts
        → ¬ Does acts i node (Write word value) }
    ensures plainly { (program : Program) (tokens : List Token) (at word : ℕ)
        → IsProgram (program_of program) tokens
        → Contains (never_written program.words (statements_of_text program tokens))
        (record { at = at; kind = NeverWritten word })
        → (nodes : ℕ) (order : List ℕ) (run : List Act) (j value : ℕ)
        → plain program nodes order ≡ Some run
        → IsDone run j (Read word value) → value ≡ 0 }
    ensures lazily { (program : Program) (tokens : List Token) (at word : ℕ)
        → IsProgram (program_of program) tokens
        → Contains (never_written program.words (statements_of_text program tokens))
        (record { at = at; kind = NeverWritten word })
        → (nodes : ℕ) (run : List Act) (j value : ℕ) → FollowsText program nodes run
        → ReadsLazily run
        → IsDone run j (Read word value) → value ≡ 0 }
{}

/// If a warning says that a lock is never released, no act that follows the text releases it.
pub fn a_lock_that_is_never_released_stays_held()
    ensures { (program : Program) (tokens : List Token) (at lock : ℕ)
        → IsProgram (program_of program) tokens
        → Contains (never_released program.locks (statements_of_text program tokens))
        (record { at = at; kind = NeverReleased lock })
        → (nodes : ℕ) (acts : List Act) (i node : ℕ) → FollowsText program nodes acts
        → ¬ Does acts i node (Release lock) }
{}

/// If a warning says that nothing in a loop changes its condition, and the condition holds when a node reaches the
/// loop, the node never leaves the loop, whatever it does from then on, and the condition keeps its value.
pub fn a_condition_that_nothing_changes_holds_for_ever()
    ensures { (program : Program) (tokens : List Token) (at : ℕ)
        → Contains (unchanged_conditions (statements_of_text program tokens))
        (record { at = at; kind = UnchangedCondition })
        → (nodes : ℕ) (acts : List Act) (node : ℕ)
        (here : IsAt (walk_to program tokens nodes acts node) at)
        → condition_holds (thread_to program tokens nodes acts node) ≡ true → (later : List Act)
        → IsInLoop (walk_to program tokens nodes (acts ++ later) node) here.task here.more
        × (condition_value (thread_to program tokens nodes (acts ++ later) node) here.task.statement
        ≡ condition_value (thread_to program tokens nodes acts node) here.task.statement) }
{}

/// Let a warning say that a loop learns of no write of another node. Let a node reach the loop at position i and make
/// an act of it at position j, without leaving the loop between. Then the node acquires, arrives and departs at no
/// position from i to j. So an act of another node that happens before the act at j already happens before the act at
/// i: the node knows no more of others than when it came.
///
/// In a run that reads lazily, as the runs of the nodes do, a read at j gives 0, or the value of a write of the node
/// itself, or of a write that happens before i. If the writes that happen before an earlier read of the word in the
/// loop are ordered, and the node itself wrote none in between, the read at j gives what that earlier read gave.
pub fn a_loop_that_learns_nothing_knows_no_more()
    ensures quiet { (program : Program) (tokens : List Token) (at : ℕ)
        → Contains (learning_nothing (statements_of_text program tokens))
        (record { at = at; kind = LearnsNothing })
        → (nodes node : ℕ) (acts : List Act) → FollowsText program nodes acts → node < nodes
        → (i j : ℕ) → GoesRound program tokens nodes acts node at i j
        → (k : ℕ) (deed : Deed) → i ≤ k → k ≤ j → Does acts k node deed → ¬ Learns deed }
    ensures known { (program : Program) (tokens : List Token) (at : ℕ)
        → Contains (learning_nothing (statements_of_text program tokens))
        (record { at = at; kind = LearnsNothing })
        → (nodes node : ℕ) (acts : List Act) → FollowsText program nodes acts → node < nodes
        → (i j : ℕ) → GoesRound program tokens nodes acts node at i j
        → (k other : ℕ) (before deed : Deed) → Does acts k other before → other ≢ node
        → Does acts j node deed → HappensBefore acts k j
        → HappensBefore acts k i }
    ensures read { (program : Program) (tokens : List Token) (at : ℕ)
        → Contains (learning_nothing (statements_of_text program tokens))
        (record { at = at; kind = LearnsNothing })
        → (nodes node : ℕ) (acts : List Act) → FollowsText program nodes acts → node < nodes
        → (i j : ℕ) → GoesRound program tokens nodes acts node at i j
        → ReadsLazily acts → (word value : ℕ) → Does acts j node (Read word value)
        → (value ≡ 0) ⊎ ((k : ℕ) × WrittenBefore acts j word k value
        × (Does acts k node (Write word value) ⊎ HappensBefore acts k i)) }
    ensures same_value { (program : Program) (tokens : List Token) (at : ℕ)
        → Contains (learning_nothing (statements_of_text program tokens))
        (record { at = at; kind = LearnsNothing })
        → (nodes node : ℕ) (acts : List Act) → FollowsText program nodes acts → node < nodes
        → (i j : ℕ) → GoesRound program tokens nodes acts node at i j
        → ReadsLazily acts → (k word earlier value : ℕ) → i ≤ k → k ≤ j
        → Does acts k node (Read word earlier) → Does acts j node (Read word value)
        → ((l own : ℕ) → k ≤ l → l ≤ j → ¬ Does acts l node (Write word own))
        → AreOrdered acts k word → earlier ≡ value }
{}

/// If a warning says that a name is set and never read, its value changes nothing: wherever acts lead a node, its
/// thread makes the same deeds from there on, whatever the name's value.
pub fn a_name_that_is_never_read_changes_nothing()
    ensures { (program : Program) (tokens : List Token) (at name : ℕ)
        → IsProgram (program_of program) tokens
        → Contains (never_read (nodes_of_text program tokens) (statements_of_text program tokens))
        (record { at = at; kind = NeverRead name })
        → (nodes : ℕ) (acts : List Act) (node value : ℕ) (deeds : List Deed)
        → let thread = thread_to program tokens nodes acts node in
        Makes (Some thread) deeds ↔ Makes (Some (record thread {
          privates = slice_set
              thread.privates name value;
        })) deeds }
{}
