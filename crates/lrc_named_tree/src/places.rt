// Which tokens of its text an expression begins and ends with, and a statement begins with.

ghost use Rattle.std.specs.Prelude.{◌≡◌};
ghost use Rattle.lrc_named_tree.specs.Ends.{first_of, last_of, first_of_statement};
ghost use Rattle.lrc_named_tree.specs.View.{expression_of, statement_of};

use crate::tree::{Expression, Statement};

impl Expression<'_> {
    /// Returns which token the expression begins with, its parentheses with it.
    pub fn first(&self) -> u32
        ensures { result ≡ first_of (expression_of self.now) }
    {
        match self {
            Expression::Number(at, _)
            | Expression::Me(at)
            | Expression::Nodes(at)
            | Expression::Group(at, _, _)
            | Expression::Not(at, _) => *at,
            Expression::Element(name, _, _) | Expression::Call(name, _, _) => name.at,
            Expression::Binary(left, _, _) | Expression::And(left, _) | Expression::Or(left, _) =>
                left.first(),
        }
    }

    /// Returns which token the expression ends with, its parentheses with it.
    pub fn last(&self) -> u32
        ensures { result ≡ last_of (expression_of self.now) }
    {
        match self {
            Expression::Number(at, _) | Expression::Me(at) | Expression::Nodes(at) => *at,
            Expression::Element(_, _, last)
            | Expression::Call(_, _, last)
            | Expression::Group(_, _, last) => *last,
            Expression::Not(_, right)
            | Expression::Binary(_, _, right)
            | Expression::And(_, right)
            | Expression::Or(_, right) => right.last(),
        }
    }
}

impl Statement<'_> {
    /// Returns which token the statement begins with.
    pub fn first(&self) -> u32
        ensures { result ≡ first_of_statement (statement_of self.now) }
    {
        match self {
            Statement::Assign(place, _, _) => place.name.at,
            Statement::Acquire(at, _)
            | Statement::Release(at, _)
            | Statement::With(at, _, _, _)
            | Statement::Barrier(at)
            | Statement::Print(at, _)
            | Statement::Assert(at, _)
            | Statement::If(at, _, _, _, _)
            | Statement::While(at, _, _)
            | Statement::For(at, _, _, _, _) => *at,
        }
    }
}
