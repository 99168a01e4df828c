// Laws of what is told of a trace. Each function is a theorem: its body is empty, and its clauses are the law.

ghost use Rattle.std.specs.Prelude.{◌≡◌, ℕ, List, Option};
ghost use Rattle.lrc_races_lines.specs.Line.{Saying};
ghost use Rattle.lrc_races_trace.specs.declared.event.Event.{Event};
ghost use Rattle.lrc_races_trace.specs.declared.event.Pair.{Pair};
ghost use Rattle.lrc_races_trace.specs.declared.fault.Fault.{Fault};
ghost use Rattle.lrc_races_trace.specs.declared.group.Group.{Group};
ghost use Rattle.lrc_races_trace.specs.Races.{AreTold};
ghost use Rattle.lrc_races_trace.specs.Formed.{IsFirstFault};
ghost use Rattle.lrc_races_trace.specs.Groups.{AreGroups};
ghost use Rattle.lrc_races_sure.specs.Sure.{AreSureTold};
ghost use Rattle.lrc_races_text.specs.declared.asked.Asked.{Asked};
ghost use Rattle.lrc_races_text.specs.declared.form.Form.{Form};
ghost use Rattle.lrc_races_text.specs.Says.{Says, Said, Say, SaysNothing};
ghost use Rattle.lrc_races_text.specs.Naming.{IsTrace, Naming};
ghost use Rattle.lrc_races_text.specs.Told.{Ends, IsBadEvent, IsBadTrace, IsCut, Tells};

/// Bytes are cut into lines in one way, and a line says one event or nothing. So lines say one list of events.
pub fn one_reading_of_bytes()
    ensures cut { (bytes : List ℕ) (lines others : List (List ℕ)) (rest left : List ℕ)
        → IsCut bytes lines rest → IsCut bytes others left
        → (lines ≡ others) × (rest ≡ left) }
    ensures says { (form : Form) (line : List ℕ) (one other : Saying) → Says form line one
        → Says form line other → one ≡ other }
    ensures nothing { (form : Form) (line : List ℕ) (saying : Saying) → Says form line saying
        → ¬ SaysNothing form line }
    ensures say { (form : Form) (number : ℕ) (lines : List (List ℕ)) (one other : List Said)
        → Say form number lines one
        → Say form number lines other → one ≡ other }
{}

/// What is said determines its trace: one list of names of each kind, and one list of events.
pub fn one_trace_of_what_is_said()
    ensures { (said : List Said) (naming others : Naming) (events more : List Event)
        → IsTrace said naming events → IsTrace said others more
        → (naming ≡ others) × (events ≡ more) }
{}

/// A trace determines its reported pairs and their order, those of them that are sure, their groups, and its first
/// fault.
pub fn one_telling_of_events()
    ensures pairs { (events : List Event) (one other : List Pair) → AreTold events one
        → AreTold events other → one ≡ other }
    ensures sure { (events : List Event) (one other : List Pair) → AreSureTold events one
        → AreSureTold events other → one ≡ other }
    ensures groups { (pairs : List Pair) (one other : List Group) → AreGroups pairs one
        → AreGroups pairs other → one ≡ other }
    ensures fault { (events : List Event) (n : ℕ) (one other : Option Fault)
        → IsFirstFault events n one → IsFirstFault events n other
        → one ≡ other }
{}

/// The bytes that have come determine one text of the report, whether more bytes are to come, they are a whole trace,
/// or one of their lines is bad. They also determine the exit status and the number of the bad line. No bytes are both
/// good and bad.
pub fn one_text_is_told()
    ensures so_far { (form : Form) (asked : Asked) (bytes one other : List ℕ)
        → Tells form asked bytes one → Tells form asked bytes other
        → one ≡ other }
    ensures whole { (form : Form) (asked : Asked) (bytes one other : List ℕ) (status code : ℕ)
        → Ends form asked bytes status one
        → Ends form asked bytes code other → (one ≡ other) × (status ≡ code) }
    ensures stopped { (form : Form) (asked : Asked) (bytes one other : List ℕ) (line number : ℕ)
        → IsBadEvent form asked bytes line one
        → IsBadEvent form asked bytes number other → (one ≡ other) × (line ≡ number) }
    ensures failed { (form : Form) (asked : Asked) (bytes one other : List ℕ) (line number : ℕ)
        → IsBadTrace form asked bytes line one
        → IsBadTrace form asked bytes number other → (one ≡ other) × (line ≡ number) }
    ensures not_stopped { (form : Form) (asked : Asked) (bytes one other : List ℕ) (line : ℕ)
        → Tells form asked bytes one
        → ¬ IsBadEvent form asked bytes line other }
    ensures not_failed { (form : Form) (asked : Asked) (bytes one other : List ℕ) (status line : ℕ)
        → Ends form asked bytes status one
        → ¬ IsBadTrace form asked bytes line other }
{}
