// Laws of the core of statements.

ghost use Rattle.std.specs.Prelude.{◌≡◌, ℕ, List};
ghost use Rattle.lrc_named_tree.specs.Tree.{Statement, Block as Tree};
ghost use Rattle.lrc_named_names.specs.Names.{Declared};
ghost use Rattle.lrc_named_core.specs.Tree.{Block};
ghost use Rattle.lrc_named_statements.specs.Statements.{AreCores, IsCore};

/// A statement has at most one core, where so many names of the translation's own are held.
pub fn statements_have_one_core()
    ensures { (declared : List Declared) (held : ℕ) (s : Statement) (b c : Block)
        → IsCore declared held s b → IsCore declared held s c → b ≡ c }
{}

/// Statements one behind the other have at most one core, likewise.
pub fn blocks_have_one_core()
    ensures { (declared : List Declared) (held : ℕ) (statements : Tree) (b c : Block)
        → AreCores declared held statements b → AreCores declared held statements c → b ≡ c }
{}
