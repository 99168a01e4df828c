// Laws of all warnings together. These functions do nothing: each contract states a law.

ghost use Rattle.std.specs.Prelude.{◌≡◌, ℕ, List, Some, slice_get};
ghost use Rattle.lrc_labels.specs.declared.label.IdleLabel.{IdleLabel};
ghost use Rattle.lrc_labels.specs.Reading.{idle_of};
ghost use Rattle.lrc_lang.specs.Grammar.{IsProgram};
ghost use Rattle.lrc_lang.specs.Token.{Token};
ghost use Rattle.lrc_program.specs.Tree.{ProgramTree};
ghost use Rattle.lrc_lint_warnings.specs.Collected.{found_in};
ghost use Rattle.lrc_lint_laws.specs.Once.{IsOnce};

/// No warning is found twice: any two warnings differ in their token or in what they say.
pub fn no_warning_is_found_twice()
    ensures { (program : ProgramTree) (tokens : List Token) → IsProgram program tokens
        → IsOnce (found_in program tokens) }
{}

/// No label line is found twice as one that says nothing: two of them are on different lines.
pub fn label_lines_that_say_nothing_are_on_lines_of_their_own()
    ensures { (words locks : ℕ) (lines : List (List ℕ)) (i j : ℕ) (one other : IdleLabel)
        → slice_get (idle_of words locks lines) i ≡ Some one
        → slice_get (idle_of words locks lines) j ≡ Some other → one.line ≡ other.line → i ≡ j }
{}
