// Laws of places, and of what stands under an acquire or a release.

ghost use Rattle.std.specs.Prelude.{◌≡◌, ◌↔◌, ℕ, List, map, true};
ghost use Rattle.lrc_lang.specs.Grammar.{IsProgram};
ghost use Rattle.lrc_lang.specs.Lines.{begins_in};
ghost use Rattle.lrc_lang.specs.Symbol.{symbols};
ghost use Rattle.lrc_lang.specs.Token.{Token};
ghost use Rattle.lrc_program.specs.Tree.{ProgramTree};
ghost use Rattle.lrc_lint_warned.specs.declared.held.Side.{Side};
ghost use Rattle.lrc_lint_warned.specs.declared.places.Scan.TheVariants.{Statements, Nodes};
ghost use Rattle.lrc_lint_warned.specs.Derived.{nodes_begin_in, place_in};
ghost use Rattle.lrc_lint_warned.specs.Held.{Path, is_under};
ghost use Rattle.lrc_lint_warned.specs.Places.{places_in};
ghost use Rattle.lrc_lint_warned.specs.Under.{IsUnder};

/// The places of the statements are those at which the grammar lets them begin.
pub fn statements_stand_where_they_begin()
    ensures { (p : ProgramTree) (tokens : List Token) (d : IsProgram p tokens) →
        places_in Statements tokens ≡ map (place_in (symbols tokens)) (begins_in d) }
{}

/// The places of the parts of expressions are those of their operands and operators in the grammar.
pub fn parts_stand_at_their_tokens()
    ensures { (p : ProgramTree) (tokens : List Token) (d : IsProgram p tokens) →
        places_in Nodes tokens ≡ map (place_in (symbols tokens)) (nodes_begin_in d) }
{}

/// A statement counts as under an acquire (or a release) of a lock exactly if three conditions hold. The acquire (or
/// release) is before the statement in its list of statements, or in a list around it. Nothing that may undo it is in
/// the text between the two. Nothing that may undo it is in a loop around the statement alone.
pub fn under_an_acquire_or_a_release()
    ensures { (side : Side) (lock : ℕ) (path : Path) → (is_under side lock path ≡ true)
        ↔ IsUnder side lock path }
{}
