// Laws of the core of expressions.

ghost use Rattle.std.specs.Prelude.{◌≡◌, ℕ, List};
ghost use Rattle.lrc_named_tree.specs.Tree.{Expression as Tree};
ghost use Rattle.lrc_named_names.specs.Names.{Declared};
ghost use Rattle.lrc_named_constants.specs.Constant.{Known};
ghost use Rattle.lrc_named_core.specs.Tree.{Block, Expression, Origin};
ghost use Rattle.lrc_named_translation.specs.Made.{IsMade};

/// An expression has at most one core, with at most one list of statements before it.
pub fn expressions_have_one_core()
    ensures { (declared : List Declared) (at : Origin) (known : List Known) (cores : List Expression)
        (e : Tree) (taken after other : ℕ) (b c : Block) (p q : Expression)
        → IsMade declared at known cores e taken b p after
        → IsMade declared at known cores e taken c q other
        → (b ≡ c) × (p ≡ q) × (after ≡ other) }
{}
