// The machine makes exactly the lazy runs. Each function is a theorem: its body is empty, and its clause is the law.

ghost use Rattle.std.specs.Prelude.{◌≡◌, ◌↔◌, ◌++◌, ◌∷◌, [], ℕ, List, Some};
ghost use Rattle.lrc_program.specs.declared.Program.{Program};
ghost use Rattle.lrc_trace.specs.declared.act.Act.{Act};
ghost use Rattle.lrc_trace.specs.declared.act.Deed.{Deed};
ghost use Rattle.lrc_trace.specs.Run.{act_of};
ghost use Rattle.lrc_exec.specs.Plain.{Plain, plain_start, plain_step};
ghost use Rattle.lrc_lazy.specs.Lazy.{IsLazyRun, IsOver};
ghost use Rattle.lrc_lazy_known.specs.declared.known.Knowledge.{Knowledge};
ghost use Rattle.lrc_lazy_known.specs.Effect.{word_of, IsKnowledgeAfter};
ghost use Rattle.lrc_lazy.specs.Standing.{with_memory, effect_at, CanMake, IsRenewed, MayGive, Stands};

/// Before the first act the machine is at the beginning of the program, and nothing is known.
pub fn the_machine_begins_with_the_program()
    ensures { (program : Program) (nodes : ℕ) (knowledge : Knowledge)
        → ((word : ℕ) → word_of knowledge word ≡ [])
        → Stands program nodes [] (plain_start program nodes) knowledge }
{}

/// A lazy run goes on with an act exactly if the machine, where the run has led it, can make this act.
pub fn a_lazy_run_goes_on_with_what_the_machine_can_make()
    ensures { (program : Program) (nodes : ℕ) (acts : List Act) (machine : Plain)
        (knowledge : Knowledge) → Stands program nodes acts machine knowledge
        → (node : ℕ) (deed : Deed)
        → (IsLazyRun program nodes (acts ++ act_of node deed ∷ [])
        ↔ CanMake program.words machine knowledge node deed) }
{}

/// After the act the machine is where the act leads, whatever its words are, and what is known changes as the act's
/// effect says.
pub fn the_machine_stands_where_its_acts_lead()
    ensures { (program : Program) (nodes : ℕ) (acts : List Act) (machine : Plain)
        (knowledge : Knowledge) → Stands program nodes acts machine knowledge
        → (node : ℕ) (deed : Deed) (memory later : List ℕ) (after : Plain) (kept : Knowledge)
        → plain_step (with_memory machine memory) node ≡ Some (deed, with_memory after later)
        → MayGive knowledge node deed
        → IsKnowledgeAfter (effect_at nodes program.locks machine node deed) knowledge kept
        → Stands program nodes (acts ++ act_of node deed ∷ []) after kept }
{}

/// Where barriers are gone from which all nodes have departed, the machine stands there too.
pub fn the_machine_stands_there_without_barriers_that_are_gone()
    ensures { (program : Program) (nodes : ℕ) (acts : List Act) (machine : Plain)
        (knowledge : Knowledge) → Stands program nodes acts machine knowledge
        → (left : Plain) (kept : Knowledge)
        → IsRenewed nodes program.locks machine knowledge left kept
        → Stands program nodes acts left kept }
{}

/// A lazy run is over exactly if the machine, where the run has led it, can make no act.
pub fn a_lazy_run_is_over_where_the_machine_can_make_nothing()
    ensures { (program : Program) (nodes : ℕ) (acts : List Act) (machine : Plain)
        (knowledge : Knowledge) → Stands program nodes acts machine knowledge
        → (IsOver program nodes acts
        ↔ ((node : ℕ) (deed : Deed) → ¬ CanMake program.words machine knowledge node deed)) }
{}
