// Laws of the grammar of statements.

ghost use Rattle.std.specs.Prelude.{◌≡◌, ℕ, List, [], ◌∷◌};
ghost use Rattle.lrc_named_tokens.specs.Token.{finish};
ghost use Rattle.lrc_named_tree.specs.Grammar.{AreStatements, Numbered, on};
ghost use Rattle.lrc_named_tree.specs.Tree.{Block};

/// Tokens up to the end of a text are those of at most one list of statements.
pub fn statements_have_one_tree()
    ensures { (b c : Block) (all : List Numbered) (last other : ℕ) → AreStatements b all (on last finish ∷ [])
        → AreStatements c all (on other finish ∷ []) → b ≡ c }
{}
