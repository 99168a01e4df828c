// What always holds of the run's data. Each function is a theorem: its body is empty, and its clause is the law.

ghost use Rattle.std.specs.Prelude.{◌≡◌, ◌<◌, ◌^◌, ◌++◌, ℕ, All, IfSome, List, Option, [], codes};
ghost use Rattle.lrc_judge.specs.declared.lanes.Pair.{Pair};
ghost use Rattle.lrc_explain.specs.declared.site.Site.{Site};
ghost use Rattle.lrc_step.specs.declared.given.Given.{Given};
ghost use Rattle.lrc_step.specs.declared.rivals.Rival.{Rival};
ghost use Rattle.lrc_step.specs.declared.end_lines.End.{End};
ghost use Rattle.lrc_step.specs.EndLines.{IsEndOfWords, explain_line};
ghost use Rattle.lrc_step.specs.Lines.{AreWords, HasNoMarkup, IsGivenOfWords, IsPairOfWords, IsRivalOfWords, IsSiteOfWords, program_line, race_line, why_line};
ghost use Rattle.lrc_step.specs.Reading.{ended, plain, reads};
ghost use Rattle.lrc_step.specs.Spelling.{spelled};

/// A reader of JSON reads back exactly the text that was spelled, whatever its bytes, and stops at the quotation mark
/// after it.
pub fn spelled_texts_are_read_back()
    ensures { (text : List ℕ) → reads (plain []) (spelled text ++ codes "\"") ≡ ended text }
{}

/// No line about the program, its reasons or its races contains a markup sign, so none of these can end the element that
/// holds the data.
pub fn lines_have_no_markup()
    ensures program { (name text : List ℕ) → HasNoMarkup (program_line name text) }
    ensures explain { (lines : List (List ℕ)) (ends : List End) (circles : List (List ℕ))
        → All IsEndOfWords ends
        → All AreWords circles
        → HasNoMarkup (explain_line lines ends circles) }
    ensures why { (position : ℕ) (lines : List (List ℕ)) (rivals : List (Option Rival))
        (given : Option Given)
        → position < 2 ^ 64
        → All (λ rival. IfSome rival IsRivalOfWords) rivals
        → IfSome given IsGivenOfWords
        → HasNoMarkup (why_line position lines rivals given) }
    ensures race { (group : Option ℕ) (site : Option Site) (pairs : List Pair)
        → IfSome group (λ number. number < 2 ^ 64)
        → IfSome site IsSiteOfWords
        → All IsPairOfWords pairs
        → HasNoMarkup (race_line group site pairs) }
{}
