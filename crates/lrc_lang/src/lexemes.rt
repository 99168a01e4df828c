// Laws of what stands in a text. They say that the definition of it gives each text one answer.

ghost use Rattle.std.specs.Prelude.{◌≡◌, ℕ, ◌+◌, ◌==◌, List, [], ◌∷◌, ◌++◌, count_by};
ghost use Rattle.lrc_lang.specs.Token.{finish, token, Placed};
ghost use Rattle.lrc_lang.specs.Lexemes.{at, Lexes};

/// Every text has a list of lexemes.
pub fn every_text_has_lexemes()
    ensures { (line : ℕ) (text : List ℕ) → (all : List Placed) × Lexes line text all }
{}

/// A text has only one list of lexemes.
pub fn lexemes_are_unique()
    ensures { (line : ℕ) (text : List ℕ) (one other : List Placed) → Lexes line text one
        → Lexes line text other → one ≡ other }
{}

/// If the lexemes of a text reach its end, the line of the end is the number of line feeds plus one.
pub fn the_end_is_on_the_last_line()
    ensures { (text : List ℕ) (front : List Placed) (line : ℕ) →
        Lexes 1 text (front ++ at line (token finish) ∷ [])
        → line ≡ count_by (λ byte. byte == 10) text + 1 }
{}
