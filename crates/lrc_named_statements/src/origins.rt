// What the statements of a core come from.

ghost use Rattle.std.specs.Prelude.{◌≡◌, IfOk};
ghost use Rattle.lrc_named_core.specs.View.{origin_of, private_of};
ghost use Rattle.lrc_named_tree.specs.View.{expressions_of, place_of, update_of};
ghost use Rattle.lrc_named_statements.specs.Statements.{asserting, at_item, closing, from, holding_place, last_index, operator_of};

use lrc_named_core::tree::{Origin, Private, Trap};
use lrc_named_translation::own::following;
use lrc_named_translation::parts::using_item;
use lrc_named_tree::tree::{Expression, Place, Update};
use lrc_program::Operator;
use std::alloc::AllocError;

/// Returns what a statement comes from that comes from the one that begins with this token, and lies on its line.
pub fn from<'p>(token: u32) -> Origin<'p>
    ensures { origin_of result ≡ from token }
{
    Origin {
        statement: token,
        line: token,
        trap: Trap::Plain,
    }
}

/// Returns the same where a trap says that an assertion does not hold.
pub fn asserting<'p>(token: u32) -> Origin<'p>
    ensures { origin_of result ≡ asserting token }
{
    Origin {
        statement: token,
        line: token,
        trap: Trap::Assertion,
    }
}

/// Returns the same of a statement that uses the item of a place.
pub fn at_item<'p>(token: u32, place: &Place<'p>) -> Origin<'p>
    ensures { origin_of result ≡ at_item token (place_of place.now) }
{
    using_item(from(token), place.name.bytes, &place.indices)
}

/// Returns the same of a statement that lies on the line of another token.
pub fn closing<'p>(token: u32, close: u32, place: &Place<'p>) -> Origin<'p>
    ensures { origin_of result ≡ closing token close (place_of place.now) }
{
    let origin = at_item(token, place);
    Origin {
        statement: origin.statement,
        line: close,
        trap: origin.trap,
    }
}

// The token with which indices end, of which the first stands behind this token.
fn last_index(at: u32, indices: &[Expression<'_>]) -> Result<u32, AllocError>
    ensures { IfOk result (λ last. last ≡ last_index at (expressions_of indices.now)) }
{
    let mut last = at;
    for index in indices {
        let end = index.last();
        let next = following(end)?;
        last = next;
    }
    Ok(last)
}

/// Returns the name of the translation's own with this number, for what a place holds. It fails only if memory runs out.
pub fn holding_place<'p>(number: u32, place: &Place<'_>) -> Result<Private<'p>, AllocError>
    ensures { IfOk result (λ name. private_of name ≡ holding_place number (place_of place.now)) }
{
    let last = last_index(place.name.at, &place.indices)?;
    Ok(Private::Own(number, place.name.at, last))
}

/// Returns the operator of `+=` and of `-=`.
pub fn operator_of(update: Update) -> Option<Operator>
    ensures { result ≡ operator_of (update_of update) }
{
    match update {
        Update::Set => None,
        Update::Add => Some(Operator::Add),
        Update::Subtract => Some(Operator::Subtract),
    }
}
