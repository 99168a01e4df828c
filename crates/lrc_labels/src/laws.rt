// Laws of labels.

ghost use Rattle.std.specs.Prelude.{◌≡◌, ◌↔◌, ℕ, AllPairs, List, [], IsTrue};
ghost use Rattle.std.specs.Str.Parse.{IsNumeral};
ghost use Rattle.lrc_lang.specs.Lexemes.{IsKeyword, IsWord};
ghost use Rattle.lrc_labels.specs.Apart.{AreApart};
ghost use Rattle.lrc_labels.specs.Name.{is_name, is_numeral};
ghost use Rattle.lrc_labels.specs.Reading.{labels_of};
ghost use Rattle.lrc_labels.specs.Sizes.{indices};

/// Exactly the words of the language that are no keywords are names.
pub fn names_are_words_that_are_no_keywords()
    ensures { (bytes : List ℕ) → IsTrue (is_name bytes)
        ↔ (IsWord bytes bytes [] × (¬ IsKeyword bytes)) }
{}

/// A numeral is one or more decimal digits, and nothing else.
pub fn numerals_are_digits()
    ensures { (bytes : List ℕ) → IsTrue (is_numeral bytes) ↔ IsNumeral 10 bytes }
{}

/// No two labels of a text share a word, a lock or a name. So each word and each lock has at most one label.
pub fn no_two_labels_name_one_thing()
    ensures { (words locks : ℕ) (lines : List (List ℕ))
        → AllPairs AreApart (labels_of words locks lines) }
{}

/// Different places of an array have different indices: no two words or locks under one label have the same.
pub fn different_places_have_different_indices()
    ensures { (one other : ℕ) (sizes : List ℕ) → indices one sizes ≡ indices other sizes
        → one ≡ other }
{}
