// Laws of lines and walks. These functions do nothing: each contract states a law.

ghost use Rattle.std.specs.Prelude.{◌≡◌, ◌<◌, ℕ, All, List, Some, length, map, slice_get, slice_index_or, take};
ghost use Rattle.lrc_program.specs.declared.Program.{Program};
ghost use Rattle.lrc_lang.specs.Lines.{HasLines};
ghost use Rattle.lrc_program.specs.Tree.{program_of};
ghost use Rattle.lrc_trace.specs.declared.act.Act.{Act};
ghost use Rattle.lrc_trace.specs.declared.act.Deed.{Deed};
ghost use Rattle.lrc_trace.specs.Run.{Does};
ghost use Rattle.lrc_exec.specs.Follows.{FollowsText};
ghost use Rattle.lrc_lines.specs.Begins.{BeginOnLines};
ghost use Rattle.lrc_lines.specs.Makes.{MakesNext};
ghost use Rattle.lrc_lines.specs.Places.{StandsAmong, in_order};
ghost use Rattle.lrc_lines.specs.Standing.{Agrees};
ghost use Rattle.lrc_lines.specs.Statements.{act_statements, numbers_of};
ghost use Rattle.lrc_lines.specs.Walks.{end_line, line_at, act_lines, walk_behind};

/// The lines of a text are those on which its statements begin: one for each statement in the order of the text, which
/// is the line of the statement's first token, and last the line of the text's end.
pub fn each_statement_begins_on_its_line()
    ensures { (text : List ℕ) (program : Program) (lines : List ℕ)
        → HasLines text (program_of program) lines → BeginOnLines text program lines }
{}

/// Whatever the acts are, the statements that a walk still has to do are those that the node's thread still has to do.
pub fn walks_agree_with_their_threads()
    ensures { (program : Program) (nodes : ℕ) (lines : List ℕ) (acts : List Act) (node : ℕ)
        → Agrees (walk_behind program nodes lines acts node) }
{}

/// What a node still has to do is part of the program's text, with the lines from that place on. The first of these
/// lines is the node's line.
pub fn what_is_still_to_do_stands_in_the_text()
    ensures { (program : Program) (nodes : ℕ) (lines : List ℕ) (acts : List Act) (node : ℕ)
        → All (StandsAmong (in_order program.statements.items) lines)
        (walk_behind program nodes lines acts node).todo }
{}

/// The line of each act is that of what comes next on its node's way. If acts follow the text, this is what makes the
/// act: the statement on that line, the barrier from which the node departs, or the end of the text.
pub fn each_line_is_of_what_makes_the_act()
    ensures line { (program : Program) (nodes : ℕ) (lines : List ℕ) (acts : List Act) (i node : ℕ)
        (deed : Deed)
        → Does acts i node deed → node < nodes → slice_get (act_lines program nodes lines acts) i
        ≡ Some (line_at (end_line lines) (walk_behind program nodes lines (take i acts) node)) }
    ensures made { (program : Program) (nodes : ℕ) (lines : List ℕ) (acts : List Act) (i node : ℕ)
        (deed : Deed)
        → FollowsText program nodes acts → Does acts i node deed → node < nodes
        → MakesNext (walk_behind program nodes lines (take i acts) node) deed }
{}

/// The lines of acts are those of their statements.
pub fn lines_are_those_of_the_statements()
    ensures { (program : Program) (nodes : ℕ) (lines : List ℕ) (acts : List Act)
        → length lines ≡ length (numbers_of program) → act_lines program nodes lines acts
        ≡ map (λ number. slice_index_or lines number 0) (act_statements program nodes acts) }
{}

/// The lines of a text are as many as its statements have numbers.
pub fn there_is_a_line_for_each_statement()
    ensures { (text : List ℕ) (program : Program) (lines : List ℕ)
        → HasLines text (program_of program) lines → length lines ≡ length (numbers_of program) }
{}
