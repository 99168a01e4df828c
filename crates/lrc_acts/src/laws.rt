// Laws of the text of acts.

ghost use Rattle.std.specs.Prelude.{◌≡◌, ◌⊎◌, ℕ, List, MatchResult, Option, Result, Ok, Err};
ghost use Rattle.lrc_acts.specs.declared.reading.ActsFault.TheVariants.{BadAct, NoMemory, TooLong};
ghost use Rattle.lrc_acts.specs.declared.reading.ActsFault.{ActsFault};
ghost use Rattle.lrc_acts.specs.declared.reading.LinedActs.{LinedActs};
ghost use Rattle.lrc_acts.specs.ActsText.{ReadsActs};
ghost use Rattle.lrc_acts.specs.Printed.{PrintedIsRead, SaysOne};

/// Printed acts are read back as the same acts.
pub fn printed_is_read()
    ensures { PrintedIsRead }
{}

/// A text says only one list of acts.
pub fn says_one()
    ensures { SaysOne }
{}

/// No text says two lists of acts, or acts on two lists of lines. No text has two first bad lines, or both acts and a
/// bad line. A text that is too long says no acts and has no bad line.
pub fn texts_of_acts_have_one_answer()
    ensures acts { (nodes : Option ℕ) (text : List ℕ) (lined others : LinedActs)
        → ReadsActs nodes text (Ok lined)
        → ReadsActs nodes text (Ok others)
        → (lined.acts.items ≡ others.acts.items) × (lined.lines.items ≡ others.lines.items) }
    ensures never_both { (nodes : Option ℕ) (text : List ℕ) (lined : LinedActs) (line : ℕ)
        → ReadsActs nodes text (Ok lined) → ReadsActs nodes text (Err (BadAct line)) → ⊥ }
    ensures line { (nodes : Option ℕ) (text : List ℕ) (line other : ℕ)
        → ReadsActs nodes text (Err (BadAct line))
        → ReadsActs nodes text (Err (BadAct other)) → line ≡ other }
    ensures too_long { (nodes : Option ℕ) (text : List ℕ) (result : Result LinedActs ActsFault)
        → ReadsActs nodes text (Err TooLong)
        → ReadsActs nodes text result
        → MatchResult result (λ lined. ⊥) (λ fault. (fault ≡ TooLong) ⊎ (fault ≡ NoMemory)) }
{}
