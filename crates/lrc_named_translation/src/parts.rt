// Parts of expressions, as the translation takes them.

ghost use Rattle.std.specs.Prelude.{◌≡◌, ◌<◌, Some, IfOk, length, map, slice_get};
ghost use Rattle.lrc_named_core.specs.Tree.{named, private};
ghost use Rattle.lrc_named_tree.specs.View.{expression_of, expressions_of};
ghost use Rattle.lrc_named_core.specs.View.{expression_of as core_of, origin_of, private_of, trap_of};
ghost use Rattle.lrc_named_translation.specs.Made.{bare, holding, trap_at, using_item};
ghost use Rattle.lrc_named_translation.specs.Turn.{junction_of};

use lrc_named_core::tree::{Expression as Core, Origin, Private, Trap};
use lrc_named_tree::tree::{Expression, Name};
use std::alloc::AllocError;

/// A name with indices, of which there may be none.
#[derive(Clone, Copy)]
pub struct Element<'e, 'p> {
    pub name: Name<'p>,
    pub indices: &'e [Expression<'p>],
    /// Which token comes last.
    pub last: u32,
}

/// `and`, or `or`.
#[derive(Clone, Copy)]
pub enum Kind {
    Both,
    Either,
}

/// `left and right`, or `left or right`.
#[derive(Clone, Copy)]
pub struct Junction<'e, 'p> {
    pub left: &'e Expression<'p>,
    pub kind: Kind,
    pub right: &'e Expression<'p>,
}

/// Returns the expression without the parentheses around it.
pub fn bare<'e, 'p>(expression: &'e Expression<'p>) -> &'e Expression<'p>
    ensures { expression_of result.now ≡ bare (expression_of expression.now) }
{
    match expression {
        Expression::Group(_, inside, _) => bare(inside),
        Expression::Number(_, _)
        | Expression::Me(_)
        | Expression::Nodes(_)
        | Expression::Element(_, _, _)
        | Expression::Call(_, _, _)
        | Expression::Not(_, _)
        | Expression::Binary(_, _, _)
        | Expression::And(_, _)
        | Expression::Or(_, _) => expression,
    }
}

/// Returns the name of the translation's own with this number, for the value of an expression.
pub fn holding<'p>(number: u32, expression: &Expression<'_>) -> Private<'p>
    ensures { private_of result ≡ holding number (expression_of expression.now) }
{
    let inside = bare(expression);
    Private::Own(number, inside.first(), inside.last())
}

/// Returns the name of the translation's own with this number, for the value of `left and right` or `left or right`.
#[tactic(auto, using(crate::proofs::Joined::own_joined))]
pub fn holding_junction<'p>(number: u32, junction: Junction<'_, '_>) -> Private<'p>
    ensures { private_of result ≡ holding number (junction_of junction.entry) }
{
    Private::Own(number, junction.left.first(), junction.right.last())
}

// What a trap says at an item with these indices.
#[tactic(auto, using(crate::proofs::Blocks::trap_some))]
fn trap_at<'p>(name: &'p [u8], indices: &[Expression<'_>]) -> Trap<'p>
    ensures { trap_of result ≡ trap_at name.now (expressions_of indices.now) }
{
    match indices {
        [] => Trap::Plain,
        [_, ..] => Trap::Index(name),
    }
}

/// Returns what a statement comes from that uses an item with these indices, where others come from this.
pub fn using_item<'p>(origin: Origin<'p>, name: &'p [u8], indices: &[Expression<'_>]) -> Origin<'p>
    ensures { origin_of result
        ≡ using_item (origin_of origin.entry) name.now (expressions_of indices.now) }
{
    let trap = trap_at(name, indices);
    Origin {
        statement: origin.statement,
        line: origin.line,
        trap,
    }
}

/// Returns the expression that is the private name of this spelling.
pub fn private_name<'p>(bytes: &'p [u8]) -> Core<'p>
    ensures { core_of result ≡ private (named bytes.now) }
{
    Core::private(Private::Named(bytes))
}

/// Returns the core at a place once more. It fails only if memory runs out.
#[tactic(auto, using(crate::proofs::Copies::core_some))]
pub fn copy_at<'p>(cores: &[Core<'p>], place: usize) -> Result<Core<'p>, AllocError>
    requires { place < length cores.now }
    ensures { IfOk result (λ e. slice_get (map core_of cores.now) place ≡ Some (core_of e)) }
{
    cores[place].copy()
}
