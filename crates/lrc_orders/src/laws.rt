// Races and meetings. Each function is a theorem: its body is empty, and its clause is the law.

ghost use Rattle.std.specs.Prelude.{◌≡◌, ℕ, ◌<◌, ◌↔◌, List, [], ◌∷◌, ◌++◌};
ghost use Rattle.lrc_program.specs.declared.Program.{Program};
ghost use Rattle.lrc_trace.specs.declared.act.Act.{Act};
ghost use Rattle.lrc_exec.specs.Plain.{Plain};
ghost use Rattle.lrc_consistency_laws.specs.Racing.{HasNoRace};
ghost use Rattle.lrc_orders.specs.Meeting.{IsCertificate, NeverMeets};
ghost use Rattle.lrc_orders.specs.Notes.{notes_of, notes_with};

/// A program has no race exactly if no order leads two nodes of the plain machine to where both are about to access one
/// word, and one of them to write it.
pub fn a_race_is_a_meeting()
    ensures { (program : Program) (nodes : ℕ)
        → (HasNoRace program nodes ↔ NeverMeets program nodes) }
{}

/// A list of states certifies that a program has no race if it has the start and each state to which a step leads from
/// one of them, and if no two nodes meet at any of them.
pub fn certified_programs_have_no_race()
    ensures { (program : Program) (nodes : ℕ) (states : List Plain)
        → IsCertificate program nodes states → HasNoRace program nodes }
{}

/// Noting one more act inserts it behind the notes of the nodes up to its own.
pub fn notes_of_one_act_more()
    ensures { (nodes : ℕ) (acts : List Act) (act : Act) → act.node < nodes
        → notes_of nodes (acts ++ act ∷ []) ≡ notes_with (notes_of nodes acts) act }
{}
