// Laws of the grammar.

ghost use Rattle.std.specs.Prelude.{◌≡◌, List, ◌∷◌, ◌++◌};
ghost use Rattle.lrc_named_tree.specs.Tree.{Expression, Statement};
ghost use Rattle.lrc_named_tree.specs.Grammar.{Numbered, IsExpression, IsStatement};
ghost use Rattle.lrc_named_tree.specs.Ends.{first_of, last_of, first_of_statement};

/// An expression begins with the first of its tokens, its parentheses with it.
pub fn expressions_begin_with_their_first_token()
    ensures { (e : Expression) (first : Numbered) (more rest : List Numbered) →
        IsExpression e (first ∷ more) rest → first_of e ≡ first.index }
{}

/// An expression ends with the last of its tokens, behind which the rest stands.
pub fn expressions_end_with_their_last_token()
    ensures { (e : Expression) (all rest : List Numbered) → IsExpression e all rest →
        (front : List Numbered) × (last : Numbered)
        × (all ≡ front ++ last ∷ rest) × (last_of e ≡ last.index) }
{}

/// A statement begins with the first of its tokens.
pub fn statements_begin_with_their_first_token()
    ensures { (s : Statement) (first : Numbered) (more rest : List Numbered) →
        IsStatement s (first ∷ more) rest → first_of_statement s ≡ first.index }
{}
