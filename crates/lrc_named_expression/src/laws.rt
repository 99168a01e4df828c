// Laws of the grammar of expressions.

ghost use Rattle.std.specs.Prelude.{◌≡◌, ℕ, List, [], ◌++◌, Some};
ghost use Rattle.lrc_named_expression.specs.Partial.{Partial, nothing, value_of};
ghost use Rattle.lrc_named_expression.specs.Run.{run};
ghost use Rattle.lrc_named_tokens.specs.Token.{Token};
ghost use Rattle.lrc_named_tree.specs.Grammar.{EndsExpression, IsExpression, Numbered, numbered};
ghost use Rattle.lrc_named_tree.specs.Tree.{Expression};

/// Tokens begin with at most one expression behind which a token stands that ends it.
pub fn expressions_have_one_tree()
    ensures { (e f : Expression) (all rest other : List Numbered) → IsExpression e all rest
        → EndsExpression rest → IsExpression f all other → EndsExpression other
        → (e ≡ f) × (rest ≡ other) }
{}

/// If the machine takes all of some tokens, an expression begins with them.
pub fn tokens_that_can_stand_begin_an_expression()
    ensures { (n : ℕ) (tokens : List Token) (x : Partial) →
        run (Some nothing) (numbered n tokens) ≡ Some x → (more : List Token) × (e : Expression)
        × IsExpression e (numbered n (tokens ++ more)) [] }
{}

/// The machine ends with a tree behind exactly the tokens of that expression.
pub fn the_machine_ends_with_the_expressions()
    ensures taken { (e : Expression) (all : List Numbered) → IsExpression e all [] →
        (x : Partial) × (run (Some nothing) all ≡ Some x) × (value_of x ≡ Some e) }
    ensures given { (e : Expression) (all : List Numbered) (x : Partial) →
        run (Some nothing) all ≡ Some x → value_of x ≡ Some e → IsExpression e all [] }
{}
