// Laws of what is explained. These functions do nothing: each contract states a law.

ghost use Rattle.std.specs.Prelude.{◌≡◌, ◌≤◌, ◌<◌, ◌+◌, ◌↔◌, ◌⊎◌, ℕ, Contains, List, [], Option, Some, length, take, true};
ghost use Rattle.lrc_program.specs.declared.Program.{Program};
ghost use Rattle.lrc_trace.specs.declared.act.Act.{Act};
ghost use Rattle.lrc_trace.specs.declared.act.Cause.{Cause};
ghost use Rattle.lrc_trace.specs.declared.act.Deed.{Deed};
ghost use Rattle.lrc_trace.specs.declared.act.Deed.TheVariants as deeds;
ghost use Rattle.lrc_trace.specs.Run.{Does, act_of, count_of};
ghost use Rattle.lrc_trace.specs.Synchronization.{Holds, IsWellSynchronized, MayGoOn};
ghost use Rattle.lrc_judge.specs.InOrder.{IsLastWritten};
ghost use Rattle.lrc_exec.specs.declared.machine.Ask.{Ask};
ghost use Rattle.lrc_exec.specs.Ask.{steps_of};
ghost use Rattle.lrc_explain_waits.specs.declared.holder.Holder.{Holder};
ghost use Rattle.lrc_explain_waits.specs.declared.missing.Missing.{Missing};
ghost use Rattle.lrc_explain_waits.specs.declared.stand.Coming.TheVariants.{Barrier, StepsUsedUp};
ghost use Rattle.lrc_explain_waits.specs.declared.stand.Fate.TheVariants.{Ended, Trapped, Unfinished};
ghost use Rattle.lrc_explain_waits.specs.Circle.{WaitsFor};
ghost use Rattle.lrc_explain_waits.specs.Circles.{waits_of};
ghost use Rattle.lrc_explain_waits.specs.Holder.{holder_of};
ghost use Rattle.lrc_explain_waits.specs.Missing.{missing_nodes};
ghost use Rattle.lrc_explain_waits.specs.Stand.{coming_of, costs, fate_of, stands_of};
ghost use Rattle.lrc_explain.specs.Access.{left_in};
ghost use Rattle.lrc_explain.specs.Held.{holder_since};
ghost use Rattle.lrc_explain.specs.Waiting.{AwaitsHolder, AwaitsLowest, HasStepsFor, IsMissing, IsUnfinished};
ghost use Rattle.lrc_explain.specs.Waiting.{arrives_in, deed_next, departs_in, steps_taken};

/// After well-synchronized acts, a node is said to hold a lock exactly if it holds it, since the acquire that is named.
pub fn the_holder_of_a_lock_holds_it()
    ensures holds { (nodes : ℕ) (run : List Act) (lines : List ℕ) (lock : ℕ) (holder : Holder)
        → IsWellSynchronized nodes run
        → holder_of lock run lines ≡ Some holder → Holds run (length run) holder.node lock }
    ensures told { (nodes : ℕ) (run : List Act) (lines : List ℕ) (lock node : ℕ)
        → IsWellSynchronized nodes run
        → (held : Holds run (length run) node lock)
        → holder_of lock run lines ≡ Some (holder_since lines node held.since) }
{}

/// A node is said to be unfinished exactly if it has neither trapped nor reached the end of the text. If a node is said
/// to have ended or trapped, one of its acts did so.
pub fn how_a_node_ended_its_acts_did()
    ensures unfinished { (run : List Act) (node : ℕ) → (fate_of node run ≡ Unfinished)
        ↔ IsUnfinished run node }
    ensures ended { (run : List Act) (node : ℕ) → fate_of node run ≡ Ended
        → (j : ℕ) × Does run j node deeds.End }
    ensures trapped { (run : List Act) (node : ℕ) (cause : Cause) → fate_of node run ≡ Trapped cause
        → (j : ℕ) × Does run j node (deeds.Trap cause) }
{}

/// The steps of a node are counted as the plain machine counts them, for each deed and over all acts. They are said to
/// be used up exactly if the node has too few of them for what it does next.
pub fn steps_are_those_of_the_plain_machine()
    ensures deed { (deed : Deed) → (costs deed ≡ true) ↔ (steps_of deed ≡ 1) }
    ensures all { (run : List Act) (node : ℕ) → count_of costs node run ≡ steps_taken run node }
    ensures used_up { (steps : Option ℕ) (run : List Act) (lines : List ℕ) (node : ℕ) (ask : Ask)
        → (coming_of steps run lines node ask ≡ StepsUsedUp)
        ↔ (¬ HasStepsFor steps run node (deed_next run node ask)) }
{}

/// A barrier that is said to come next at a node, or to be where it has arrived, has the number of barriers that the
/// node has departed from, plus one. The nodes that are said to be missing are exactly those that keep the node from
/// departing. The node may depart exactly if no node is missing and it has arrived itself.
pub fn missing_nodes_keep_a_node_back()
    ensures number { (steps : Option ℕ) (run : List Act) (lines : List ℕ) (node number : ℕ)
        (ask : Ask)
        → coming_of steps run lines node ask ≡ Barrier number → number ≡ departs_in run node + 1 }
    ensures missing { (program : Program) (nodes : ℕ) (lines : List ℕ) (steps : Option ℕ)
        (run : List Act) (node : ℕ) (missing : Missing)
        → Contains (missing_nodes (departs_in run node + 1) node
        (stands_of program nodes lines steps run)) missing
        ↔ IsMissing nodes run node missing }
    ensures departs { (program : Program) (nodes : ℕ) (lines : List ℕ) (steps : Option ℕ)
        (run : List Act) (node : ℕ) → node < nodes
        → ((missing_nodes (departs_in run node + 1) node (stands_of program nodes lines steps run)
        ≡ [])
        × (departs_in run node < arrives_in run node))
        ↔ MayGoOn nodes run (act_of node deeds.Depart) }
{}

/// After well-synchronized acts, a node is said to wait for another node exactly if the other one holds the lock that
/// comes next at the node, or is the lowest node that keeps it back from the barrier that comes next or at which it has
/// arrived.
pub fn a_node_waits_for_whom_its_acts_say()
    ensures { (program : Program) (nodes : ℕ) (lines : List ℕ) (steps : Option ℕ) (run : List Act)
        (node other : ℕ)
        → IsWellSynchronized nodes run → node < nodes → other < nodes
        → WaitsFor (waits_of (stands_of program nodes lines steps run)) node other
        ↔ (AwaitsHolder program nodes lines steps run node other
        ⊎ AwaitsLowest program nodes lines steps run node other) }
{}

/// The value that acts leave in a word is the one that the last write to it before the position wrote, or 0 if there
/// was no write.
pub fn what_acts_leave_in_a_word_was_written_last()
    ensures { (run : List Act) (position word : ℕ) → position ≤ length run
        → IsLastWritten run position word (left_in word (take position run)) }
{}
