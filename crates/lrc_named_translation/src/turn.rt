// `and` and `or`, at once and in turn.

ghost use Rattle.std.specs.Prelude.{◌≡◌, IfOk};
ghost use Rattle.lrc_named_core.specs.View.{block_of, expression_of, origin_of, private_of};
ghost use Rattle.lrc_named_core.specs.Tree.{private};
ghost use Rattle.lrc_named_translation.specs.Added.{IsAdded};
ghost use Rattle.lrc_named_translation.specs.Turn.{at_once, condition, in_turn};

use crate::own::truth;
use crate::parts::Kind;
use lrc_named_core::binary;
use lrc_named_core::tree::{Expression as Core, Origin, Private, Statement};
use lrc_program::Operator;
use std::alloc::{AllocError, Global};

/// Returns the expression of both sides where neither has to be left out. It fails only if memory runs out.
pub fn at_once<'p>(
    alloc: Global,
    kind: Kind,
    left: Core<'p>,
    right: Core<'p>,
) -> Result<Core<'p>, AllocError>
    ensures { IfOk result (λ e. expression_of e
        ≡ at_once kind (expression_of left.entry) (expression_of right.entry)) }
{
    let first = truth(alloc, left)?;
    let second = truth(alloc, right)?;
    match kind {
        Kind::Both => binary(alloc, first, Operator::Multiply, second),
        Kind::Either => {
            let sum = binary(alloc, first, Operator::Add, second)?;
            truth(alloc, sum)
        }
    }
}

/// The names that hold whether the left side of `and` or `or` holds, and then whether the whole does.
#[derive(Clone, Copy)]
pub struct Turn<'p> {
    pub origin: Origin<'p>,
    pub kind: Kind,
    pub left: Private<'p>,
    pub whole: Private<'p>,
}

// The condition under which the right side is computed.
fn condition<'p>(alloc: Global, kind: Kind, left: Private<'p>) -> Result<Core<'p>, AllocError>
    ensures { IfOk result (λ e. expression_of e
        ≡ condition kind (private_of left.entry)) }
{
    match kind {
        Kind::Both => Ok(Core::private(left)),
        Kind::Either => binary(alloc, Core::private(left), Operator::Equal, Core::number(0)),
    }
}

impl<'p> Turn<'p> {
    /// Adds the statements that compute the left side, and the right side, with what comes before it, unless the left one
    /// decides. It fails only if memory runs out.
    pub fn take(
        self,
        alloc: Global,
        left: Core<'p>,
        mut inside: Vec<Statement<'p>>,
        right: Core<'p>,
        before: &mut Vec<Statement<'p>>,
    ) -> Result<(), AllocError>
        ensures { IfOk result (λ done. IsAdded (λ b. b ≡ in_turn (origin_of self.entry.origin)
            self.entry.kind (private_of self.entry.left) (private_of self.entry.whole)
            (expression_of left.entry) (block_of inside.entry.items) (expression_of right.entry))
            before.old.items before.new.items) }
    {
        let first = truth(alloc, left)?;
        let second = truth(alloc, right)?;
        let test = condition(alloc, self.kind, self.left)?;
        inside.push(Statement::Assign(self.origin, self.whole, second))?;
        before.push(Statement::Assign(self.origin, self.left, first))?;
        before.push(Statement::If(self.origin, test, inside, Vec::new(alloc)))?;
        Ok(())
    }
}
