// Laws of private names. Each function is a theorem: its body is empty, and its clauses are the law.

ghost use Rattle.std.specs.Prelude.{◌≡◌, ◌+◌, ◌<◌, ◌≤◌, ℕ, List, length, slice_index};
ghost use Rattle.lrc_program.specs.declared.Program.{Program};
ghost use Rattle.lrc_trace.specs.declared.act.Act.{Act};
ghost use Rattle.lrc_private_names.specs.Standing.{Sets, SetsLast, thread_before};

/// A private name has the value that it was set to last. It is 0 until an act of its node sets it, and then keeps the
/// value that it had just after the last such act.
pub fn names_keep_what_they_were_set_to()
    ensures never { (program : Program) (nodes : ℕ) (lines : List ℕ) (acts : List Act)
        (node name position : ℕ) → position ≤ length acts
        → ((k : ℕ) → k < position → ¬ Sets program nodes lines acts node name k)
        → slice_index (thread_before program nodes lines acts node position).privates name ≡ 0 }
    ensures kept { (program : Program) (nodes : ℕ) (lines : List ℕ) (acts : List Act)
        (node name before position : ℕ) → before ≤ length acts
        → SetsLast program nodes lines acts node name before position
        → slice_index (thread_before program nodes lines acts node before).privates name
        ≡ slice_index (thread_before program nodes lines acts node (position + 1)).privates name }
{}
