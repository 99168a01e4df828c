// Laws of named programs. The functions do nothing: their contracts state the laws.

ghost use Rattle.std.specs.Prelude.{◌≡◌, ◌+◌, ◌<◌, ℕ, List, Option, Some};
ghost use Rattle.lrc_lang.specs.Faults.{IsText};
ghost use Rattle.lrc_program.specs.Tree.{ProgramTree};
ghost use Rattle.lrc_named_names.specs.Names.{Item, lock, meaning_of, shared};
ghost use Rattle.lrc_named_address_laws.specs.Elements.{AreWithin, element_at};
ghost use Rattle.lrc_named.specs.Named.{IsCoreText};
ghost use Rattle.lrc_named_acts_laws.specs.Coded.{number_of};
ghost use Rattle.lrc_named_laws.specs.Names.{AllNames, AreOne};
ghost use Rattle.lrc_named_laws.specs.Printed.{numbers_in, program_of};

/// What `core` prints of a named program without a fault is a text of the language, without a fault itself: it is parsed to the core of this
/// named program, with just its words, its locks and its statements, each private name by the number of its first place, and to no other.
pub fn the_text_that_core_prints_is_just_its_core()
    ensures is_a_program { (text core : List ℕ) (nodes : Option ℕ) (printed : IsCoreText text nodes core) → IsText core (program_of printed) }
    ensures is_no_other { (text core : List ℕ) (nodes : Option ℕ) (printed : IsCoreText text nodes core) (p : ProgramTree)
        → IsText core p → p ≡ program_of printed }
{}

/// Any two private names of that core have one number only where they are one name: no name of the named program is taken for another one,
/// or for one of the translation's own.
pub fn private_names_of_a_core_are_told_apart()
    ensures { (text core : List ℕ) (nodes : Option ℕ) (printed : IsCoreText text nodes core)
        → AllNames (λ x. AllNames
        (λ y. number_of (numbers_in printed.core_is.statements) x ≡ number_of (numbers_in printed.core_is.statements) y → AreOne x y)
        printed.core_is.statements) printed.core_is.statements }
{}

/// Two elements of shared items of such a program are one word only where they are one element of one item, and each is below `words`; so are
/// locks.
pub fn different_elements_are_different_words_and_locks()
    ensures words { (text core : List ℕ) (nodes : Option ℕ) (printed : IsCoreText text nodes core) (name other : List ℕ) (item own : Item) (vs ws : List ℕ)
        → meaning_of printed.declared name ≡ Some (shared item) → meaning_of printed.declared other ≡ Some (shared own)
        → AreWithin item.sizes vs → AreWithin own.sizes ws
        → item.first + element_at item.sizes vs ≡ own.first + element_at own.sizes ws → (name ≡ other) × (vs ≡ ws) }
    ensures locks { (text core : List ℕ) (nodes : Option ℕ) (printed : IsCoreText text nodes core) (name other : List ℕ) (item own : Item) (vs ws : List ℕ)
        → meaning_of printed.declared name ≡ Some (lock item) → meaning_of printed.declared other ≡ Some (lock own)
        → AreWithin item.sizes vs → AreWithin own.sizes ws
        → item.first + element_at item.sizes vs ≡ own.first + element_at own.sizes ws → (name ≡ other) × (vs ≡ ws) }
    ensures below_words { (text core : List ℕ) (nodes : Option ℕ) (printed : IsCoreText text nodes core) (name : List ℕ) (item : Item) (vs : List ℕ)
        → meaning_of printed.declared name ≡ Some (shared item) → AreWithin item.sizes vs
        → item.first + element_at item.sizes vs < printed.core_is.words }
    ensures below_locks { (text core : List ℕ) (nodes : Option ℕ) (printed : IsCoreText text nodes core) (name : List ℕ) (item : Item) (vs : List ℕ)
        → meaning_of printed.declared name ≡ Some (lock item) → AreWithin item.sizes vs
        → item.first + element_at item.sizes vs < printed.core_is.locks }
{}
