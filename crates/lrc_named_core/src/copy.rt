// Expressions that are made of others, and copies.

ghost use Rattle.std.specs.Prelude.{◌≡◌, ◌||◌, IfOk};
ghost use Rattle.lrc_named_core.specs.Shape.{private_of, tree_of};
ghost use Rattle.lrc_named_core.specs.Tree.{binary as joined, divides, me, nodes, number, private};
ghost use Rattle.lrc_named_core.specs.View.{expression_of};

use crate::tree::{Expression, Private, Tree};
use lrc_program::Operator;
use std::alloc::{AllocError, Global};
use std::rc::Rc;

fn divides(operator: Operator) -> bool
    ensures { result ≡ divides operator }
{
    matches!(operator, Operator::Divide | Operator::Remainder)
}

impl<'p> Tree<'p> {
    // The same once more, of which the sides are shared.
    fn copy(&self) -> Result<Tree<'p>, AllocError>
        ensures { IfOk result (λ t. tree_of t ≡ tree_of self.now) }
    {
        match self {
            Tree::Number(n) => Ok(Tree::Number(*n)),
            Tree::Private(name) => Ok(Tree::Private(*name)),
            Tree::Me => Ok(Tree::Me),
            Tree::Nodes => Ok(Tree::Nodes),
            Tree::Binary(left, operator, right) => {
                let first = left.clone()?;
                let second = right.clone()?;
                Ok(Tree::Binary(first, *operator, second))
            }
        }
    }
}

impl<'p> Expression<'p> {
    /// Returns the expression that is a number.
    pub fn number(n: u64) -> Expression<'p>
        ensures { expression_of result ≡ number n }
    {
        Expression {
            tree: Tree::Number(n),
            divides: false,
            names: false,
        }
    }

    /// Returns the expression that is a private name.
    pub fn private(name: Private<'p>) -> Expression<'p>
        ensures { expression_of result ≡ private (private_of name.entry) }
    {
        Expression {
            tree: Tree::Private(name),
            divides: false,
            names: true,
        }
    }

    /// Returns the expression that is `me`.
    pub fn me() -> Expression<'p>
        ensures { expression_of result ≡ me }
    {
        Expression {
            tree: Tree::Me,
            divides: false,
            names: false,
        }
    }

    /// Returns the expression that is `nodes`.
    pub fn nodes() -> Expression<'p>
        ensures { expression_of result ≡ nodes }
    {
        Expression {
            tree: Tree::Nodes,
            divides: false,
            names: false,
        }
    }

    /// Returns the same expression once more, at once: the two share what they are built of. It fails only if memory runs out.
    pub fn copy(&self) -> Result<Expression<'p>, AllocError>
        ensures { IfOk result (λ e. expression_of e ≡ expression_of self.now) }
    {
        let tree = self.tree.copy()?;
        Ok(Expression {
            tree,
            divides: self.divides,
            names: self.names,
        })
    }
}

/// Returns the expression that an operator makes of its sides. It fails only if memory runs out.
pub fn binary<'p>(
    alloc: Global,
    left: Expression<'p>,
    operator: Operator,
    right: Expression<'p>,
) -> Result<Expression<'p>, AllocError>
    ensures { IfOk result (λ e. expression_of e
        ≡ joined (expression_of left.entry) operator (expression_of right.entry)) }
{
    let divides = divides(operator) || left.divides || right.divides;
    let names = left.names || right.names;
    let left = Rc::new(alloc, left.tree)?;
    let right = Rc::new(alloc, right.tree)?;
    Ok(Expression {
        tree: Tree::Binary(left, operator, right),
        divides,
        names,
    })
}
