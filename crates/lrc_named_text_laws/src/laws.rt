// Laws of the text of a core. The functions do nothing: their contracts state the laws.

ghost use Rattle.std.specs.Prelude.{◌≡◌, ◌≤◌, ℕ, List, [], length};
ghost use Rattle.std.specs.List.{AllByRecursion};
ghost use Rattle.lrc_lang.specs.Faults.{IsText};
ghost use Rattle.lrc_program.specs.Tree.{ProgramTree};
ghost use Rattle.lrc_named_core.specs.Tree.{Block};
ghost use Rattle.lrc_named_limits.specs.Limits.{IsOverInBlock};
ghost use Rattle.lrc_named_limits.specs.declared.excess.Excess.{Excess};
ghost use Rattle.lrc_named_names.specs.Names.{Declared};
ghost use Rattle.lrc_named_text.specs.Statements.{core_text};
ghost use Rattle.lrc_named_acts_laws.specs.Coded.{block_coded};
ghost use Rattle.lrc_named_text_laws.specs.Named.{numbers_among, with_statements};
ghost use Rattle.lrc_named_text_laws.specs.Spelled.{AreLabelled, AreSpelled, Fits};

/// The text of a core is read as the program of just these words, locks and statements, in which each private name has the number of its
/// first place: its parentheses, its blanks and its comments change nothing. Two names have one number only where they are spelled alike.
pub fn the_text_of_a_core_is_read_as_that_core()
    ensures { (words locks : ℕ) (declared : List Declared) (lines : List ℕ) (statements : Block) (p : ProgramTree)
        → Fits words → Fits locks → AreLabelled declared → AllByRecursion Fits lines → AreSpelled statements
        → IsText (core_text words locks declared lines statements) p
        → p ≡ record {
          words = words;
          locks = locks;
          statements = block_coded (numbers_among (with_statements [] statements)) statements;
        } }
{}

/// The text of a core is a program of the language, without a fault: where its names and numbers can be written, it has at least one word,
/// and no limit is passed, which are those of its words, its locks, its expressions and blocks, its private names and its bytes.
pub fn the_text_of_a_core_is_a_program()
    ensures { (words locks privates : ℕ) (declared : List Declared) (lines : List ℕ) (statements : Block)
        → 1 ≤ words → words ≤ 65536 → locks ≤ 64 → AreLabelled declared → AllByRecursion Fits lines → AreSpelled statements
        → ((x : Excess) → IsOverInBlock privates 0 statements x → ⊥) → length (with_statements [] statements) ≤ 32
        → length (core_text words locks declared lines statements) ≤ 65536
        → IsText (core_text words locks declared lines statements) (record {
          words = words;
          locks = locks;
          statements = block_coded (numbers_among (with_statements [] statements)) statements;
        }) }
{}
