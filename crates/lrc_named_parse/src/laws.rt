// Laws of named programs and of first faults.

ghost use Rattle.std.specs.Prelude.{◌≡◌, ℕ, List};
ghost use Rattle.lrc_lang.specs.declared.fault.FaultKind.{FaultKind};
ghost use Rattle.lrc_named_parse.specs.Faults.{IsNamed, HasFirstFault};
ghost use Rattle.lrc_named_tokens.specs.Token.{Token, Located, Place};
ghost use Rattle.lrc_named_tree.specs.Grammar.{IsNamedProgram};
ghost use Rattle.lrc_named_tree.specs.Tree.{NamedTree};

/// A list of tokens is that of at most one named program.
pub fn tokens_are_of_one_named_program()
    ensures { (tokens : List Token) (p q : NamedTree) →
        IsNamedProgram p tokens → IsNamedProgram q tokens → p ≡ q }
{}

/// A text is at most one named program, has at most one first fault, and not both.
pub fn texts_have_one_answer()
    ensures program { (text : List ℕ) (all others : List Located) (p q : NamedTree) →
        IsNamed text all p → IsNamed text others q → p ≡ q }
    ensures fault { (text : List ℕ) (place own : Place) (kind other : FaultKind) →
        HasFirstFault text place kind → HasFirstFault text own other → (place ≡ own) × (kind ≡ other) }
    ensures either { (text : List ℕ) (all : List Located) (p : NamedTree) (place : Place)
        (kind : FaultKind) → IsNamed text all p → HasFirstFault text place kind → ⊥ }
{}
