// Laws of what stands in a text. They say that the definition of it gives each text one answer.

ghost use Rattle.std.specs.Prelude.{◌≡◌, ℕ, ◌+◌, ◌==◌, List, [], ◌∷◌, ◌++◌, length, count_by};
ghost use Rattle.lrc_named_tokens.specs.Token.{finish, token, Place, Located};
ghost use Rattle.lrc_named_tokens.specs.Lexemes.{at, Lexes, HasLexemes};

/// Every text has a list of lexemes.
pub fn every_text_has_lexemes()
    ensures { (p : Place) (text : List ℕ) → (all : List Located) × Lexes p text all }
{}

/// A text has only one list of lexemes.
pub fn lexemes_are_unique()
    ensures { (p : Place) (text : List ℕ) (one other : List Located) → Lexes p text one
        → Lexes p text other → one ≡ other }
{}

/// If the lexemes of a text reach its end, the line of the end is the number of line feeds plus one, and all bytes come
/// before it.
pub fn the_end_is_behind_all_bytes()
    ensures line { (text : List ℕ) (front : List Located) (p : Place) →
        HasLexemes text (front ++ at p (token finish) ∷ [])
        → p.line ≡ count_by (λ byte. byte == 10) text + 1 }
    ensures offset { (text : List ℕ) (front : List Located) (p : Place) →
        HasLexemes text (front ++ at p (token finish) ∷ []) → p.offset ≡ length text }
{}
