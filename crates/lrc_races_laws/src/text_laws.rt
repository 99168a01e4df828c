// Laws of the texts that are printed of runs, as traces of threads. Each function is a theorem: its body is empty, and its clauses are
// the law.

ghost use Rattle.std.specs.Prelude.{◌≡◌, ◌<◌, ◌^◌, ◌↔◌, ◌++◌, ℕ, Bool, List, length};
ghost use Rattle.lrc_program.specs.declared.Program.{Program};
ghost use Rattle.lrc_trace.specs.declared.act.Act.{Act};
ghost use Rattle.lrc_acts_text.specs.ActsText.{acts_text};
ghost use Rattle.lrc_acts_text.specs.Rapid.{rapid_of, rapid_text};
ghost use Rattle.lrc_races_text.specs.declared.asked.Asked.{Asked};
ghost use Rattle.lrc_races_text.specs.declared.asked.Layout.{Layout};
ghost use Rattle.lrc_races_text.specs.declared.form.Form.TheVariants.{Acts, Std};
ghost use Rattle.lrc_races_text.specs.Says.{Said, Say};
ghost use Rattle.lrc_races_text.specs.Told.{Ends, IsBadEvent, IsBadTrace, IsCut};
ghost use Rattle.lrc_races_laws.specs.Runs.{IsLinedRun};
ghost use Rattle.lrc_races_laws.specs.Said.{acts_said, AreSaid};
ghost use Rattle.lrc_races_laws.specs.Telling.{all_races, TellsActs, TellsRapid};

/// Take any run, of any program on at most 16 nodes and with any events, that has fewer than 2^64 acts, as every run in
/// memory has. Its RAPID trace is read as exactly its steps, and no front of the trace is bad. The races told are the
/// run's, for each access, the last with each node, by the lines of the trace and of the program; and the trace is well
/// formed.
pub fn rapid_text_of_every_run_is_told()
    ensures read { (program : Program) (nodes : ℕ) (acts : List Act) (lines : List ℕ)
        (parts : List (List ℕ)) (rest : List ℕ) (said : List Said)
        → IsLinedRun program nodes acts lines → length acts < 2 ^ 64
        → IsCut (rapid_text program.locks nodes acts lines) parts rest
        → Say Std 1 parts said ↔ AreSaid lines (rapid_of program.locks nodes acts) said }
    ensures told { (program : Program) (nodes : ℕ) (acts : List Act) (lines : List ℕ) (group : Bool)
        (layout : Layout) (status : ℕ) (told : List ℕ)
        → IsLinedRun program nodes acts lines → length acts < 2 ^ 64
        → Ends Std (all_races group layout) (rapid_text program.locks nodes acts lines) status told
        → TellsRapid program nodes acts lines group layout status told }
    ensures good { (program : Program) (nodes : ℕ) (acts : List Act) (lines front more : List ℕ)
        (asked : Asked) (line : ℕ) (told : List ℕ)
        → IsLinedRun program nodes acts lines → length acts < 2 ^ 64
        → rapid_text program.locks nodes acts lines ≡ front ++ more
        → ¬ IsBadEvent Std asked front line told }
    ensures whole { (program : Program) (nodes : ℕ) (acts : List Act) (lines : List ℕ)
        (asked : Asked) (line : ℕ) (told : List ℕ)
        → IsLinedRun program nodes acts lines → length acts < 2 ^ 64
        → ¬ IsBadTrace Std asked (rapid_text program.locks nodes acts lines) line told }
{}

/// Take any run, of any program on at most 16 nodes and with any events. The text of its acts is read as exactly its
/// acts, and no front of the text is bad. The races told are the run's, for each access, the last with each node, by
/// the lines of the text and of the program, so that groups are by lines of the program; and the text is well formed.
pub fn acts_text_of_every_run_is_told()
    ensures read { (program : Program) (nodes : ℕ) (acts : List Act) (lines : List ℕ)
        (parts : List (List ℕ)) (rest : List ℕ) (said : List Said)
        → IsLinedRun program nodes acts lines → IsCut (acts_text acts lines) parts rest
        → Say Acts 1 parts said ↔ (said ≡ acts_said 0 lines acts) }
    ensures told { (program : Program) (nodes : ℕ) (acts : List Act) (lines : List ℕ) (group : Bool)
        (layout : Layout) (status : ℕ) (told : List ℕ)
        → IsLinedRun program nodes acts lines → Ends Acts (all_races group layout) (acts_text acts lines) status told
        → TellsActs acts lines group layout status told }
    ensures good { (program : Program) (nodes : ℕ) (acts : List Act) (lines front more : List ℕ)
        (asked : Asked) (line : ℕ) (told : List ℕ)
        → IsLinedRun program nodes acts lines → acts_text acts lines ≡ front ++ more
        → ¬ IsBadEvent Acts asked front line told }
    ensures whole { (program : Program) (nodes : ℕ) (acts : List Act) (lines : List ℕ)
        (asked : Asked) (line : ℕ) (told : List ℕ)
        → IsLinedRun program nodes acts lines
        → ¬ IsBadTrace Acts asked (acts_text acts lines) line told }
{}
