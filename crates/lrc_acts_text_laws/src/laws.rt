// What always holds of texts of the runs of a program. Each function is a theorem: its body is empty, and its clauses are the law.

ghost use Rattle.std.specs.Prelude.{◌≡◌, ◌≢◌, ◌<◌, ◌≤◌, ◌⊎◌, ◌↔◌, ◌++◌, ℕ, All, Bool, List, length};
ghost use Rattle.std.specs.Prelude.{IfSome, MatchResult, None, Option, Result, Some};
ghost use Rattle.lrc_program.specs.declared.Program.{Program};
ghost use Rattle.lrc_lang.specs.Faults.{IsText};
ghost use Rattle.lrc_program.specs.Tree.{program_of};
ghost use Rattle.lrc_trace.specs.declared.act.Act.{Act};
ghost use Rattle.lrc_trace.specs.Conflict.{Accesses, IsRaceFree};
ghost use Rattle.lrc_trace.specs.Order.{HappensBefore};
ghost use Rattle.lrc_trace.specs.Reading.{ReadsLazily};
ghost use Rattle.lrc_trace.specs.Synchronization.{WaitsAtBarriers};
ghost use Rattle.lrc_exec.specs.Follows.{FollowsText};
ghost use Rattle.lrc_protocol.specs.declared.event.Event.{Event};
ghost use Rattle.lrc_protocol.specs.Node.{OptionsRecord};
ghost use Rattle.lrc_protocol.specs.Run.{World, run_of};
ghost use Rattle.lrc_text.specs.Lines.{lines_of};
ghost use Rattle.lrc_acts.specs.ActsText.{ReadsActs, SayActs, most_bytes};
ghost use Rattle.lrc_acts.specs.JudgeLines.{lazy_line, synchronized_line};
ghost use Rattle.lrc_acts.specs.Printed.{IsRanged, numbers_from};
ghost use Rattle.lrc_acts.specs.declared.reading.ActsFault.{ActsFault};
ghost use Rattle.lrc_acts.specs.declared.reading.ActsFault.TheVariants.{NoMemory, TooLong};
ghost use Rattle.lrc_acts.specs.declared.reading.LinedActs.{LinedActs};
ghost use Rattle.lrc_judge_text.specs.Judgement.{CountsNodes, IsJudgement};
ghost use Rattle.lrc_acts_text.specs.Rapid.{rapid_of};
ghost use Rattle.lrc_acts_text.specs.RapidOrder.{IsOf, Orders};
ghost use Rattle.lrc_acts_text_laws.specs.JudgedRun.{IsJudgedRun};
ghost use Rattle.lrc_acts_text_laws.specs.PrintedRun.{IsPrintedRun};

/// If each node's acts are those of the text, then each act belongs to one of the nodes, and each lock that is acquired
/// or released is a lock of the program.
pub fn acts_of_a_text_are_of_its_locks()
    ensures { (program : Program) (nodes : ℕ) (acts : List Act) → FollowsText program nodes acts
        → IsOf program.locks nodes acts }
{}

/// In every run, of any program, on any number of nodes and with any events, the acts belong to the nodes and use the
/// program's locks, and a node that has reached a barrier does nothing until it departs. Between two accesses of the
/// run, happens before is therefore the order of the RAPID trace: program order, and each release before later acquires
/// of the same lock.
pub fn order_in_rapid_of_every_run_is_happens_before()
    ensures in_range { (program : Program) (nodes : ℕ) (options : OptionsRecord)
        (events : List Event) (world : World)
        → run_of program nodes options events ≡ Some world → IsOf program.locks nodes world.acts }
    ensures waits { (program : Program) (nodes : ℕ) (options : OptionsRecord) (events : List Event)
        (world : World)
        → run_of program nodes options events ≡ Some world → WaitsAtBarriers world.acts }
    ensures order { (program : Program) (nodes : ℕ) (options : OptionsRecord) (events : List Event)
        (world : World)
        (i j p q v w : ℕ) → run_of program nodes options events ≡ Some world
        → Accesses world.acts i p v
        → Accesses world.acts j q w → i ≢ j
        → HappensBefore world.acts i j ↔ Orders (rapid_of program.locks nodes world.acts) i j }
{}

/// If acts follow the text of a program on at most 16 nodes and read lazily, every number in them is in range: nodes 0
/// to 15, words of 32 bits, values of 64 bits, locks of 8 bits.
pub fn acts_of_a_text_are_in_range()
    ensures { (text : List ℕ) (program : Program) (nodes : ℕ) (acts : List Act)
        → IsText text (program_of program) → nodes ≤ 16
        → FollowsText program nodes acts → ReadsLazily acts → All IsRanged acts }
{}

/// The text printed of every run of a program is read as the run's acts: one on each line, from line 1. This also holds
/// if a number of nodes is given that is at least the run's number. So if the text is not too long, the reader answers
/// exactly these acts, unless memory runs out. If it is too long, the reader says so, unless memory runs out.
pub fn printed_acts_of_every_run_are_read()
    ensures ranged { (nodes : ℕ) (acts : List Act) (printed : List ℕ)
        → IsPrintedRun nodes acts printed → All IsRanged acts }
    ensures read { (nodes : ℕ) (acts : List Act) (printed : List ℕ) (given : Option ℕ)
        → IsPrintedRun nodes acts printed
        → IfSome given (λ most. nodes ≤ most)
        → SayActs given 1 (lines_of printed) acts (numbers_from 1 acts) }
    ensures whole { (nodes : ℕ) (acts : List Act) (printed : List ℕ) (given : Option ℕ)
        (result : Result LinedActs ActsFault)
        → IsPrintedRun nodes acts printed → IfSome given (λ most. nodes ≤ most)
        → length printed ≤ most_bytes
        → ReadsActs given printed result
        → MatchResult result (λ lined. (lined.acts.items ≡ acts)
        × (lined.lines.items ≡ numbers_from 1 acts)) (λ fault. fault ≡ NoMemory) }
    ensures too_long { (printed : List ℕ) (given : Option ℕ) (result : Result LinedActs ActsFault)
        → most_bytes < length printed
        → ReadsActs given printed result
        → MatchResult result (λ _. ⊥) (λ fault. (fault ≡ TooLong) ⊎ (fault ≡ NoMemory)) }
{}

/// The judge says of a run's printed text what the definitions say of the run's acts. The output begins with the lines
/// `well synchronized` and `reads lazily`, and the status tells whether the run has a race: 3 if it does, else 0.
pub fn printed_runs_are_judged_as_their_acts()
    ensures judgement { (acts : List Act) (pairs : Bool) (out : List ℕ) (status : ℕ)
        (is : IsJudgedRun acts pairs out status)
        → (count : ℕ) × CountsNodes is.given acts count
        × IsJudgement count None acts (numbers_from 1 acts) pairs out status }
    ensures begins { (acts : List Act) (pairs : Bool) (out : List ℕ) (status : ℕ)
        → IsJudgedRun acts pairs out status
        → (rest : List ℕ) × (out ≡ synchronized_line ++ lazy_line ++ rest) }
    ensures status { (acts : List Act) (pairs : Bool) (out : List ℕ) (status : ℕ)
        → IsJudgedRun acts pairs out status
        → ((status ≡ 0) × IsRaceFree acts) ⊎ ((status ≡ 3) × ¬ IsRaceFree acts) }
{}
