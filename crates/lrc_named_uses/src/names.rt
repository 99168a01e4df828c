// The names among the tokens of a text.

ghost use Rattle.std.specs.Prelude.{◌≡◌, drop, map, take};
ghost use Rattle.lrc_named_tokens.specs.View.{located_of};
ghost use Rattle.lrc_named_tree.specs.View.{expression_of};
ghost use Rattle.lrc_named_uses.specs.Names.{tokens_between, tokens_in};

use lrc_named_tokens::token::Located;
use lrc_named_tree::tree::Expression;

/// Returns the tokens of an expression.
pub(crate) fn tokens_in<'a, 't>(
    tokens: &'a [Located<'t>],
    expression: &Expression<'_>,
) -> &'a [Located<'t>]
    ensures { map located_of result.now
        ≡ tokens_in (map located_of tokens.entry.now) (expression_of expression.now) }
{
    between(tokens, expression.first(), expression.last())
}

// The tokens from the first to the last one.
fn between<'a, 't>(tokens: &'a [Located<'t>], first: u32, last: u32) -> &'a [Located<'t>]
    ensures { map located_of result.now
        ≡ tokens_between (map located_of tokens.entry.now) first last }
{
    let from = first as usize;
    part(tokens, from, (last as usize + 1).saturating_sub(from))
}

// The tokens from a place on, at most so many.
fn part<'a, 't>(tokens: &'a [Located<'t>], from: usize, count: usize) -> &'a [Located<'t>]
    ensures { result.now ≡ take count (drop from tokens.entry.now) }
{
    let rest = &tokens[from.min(tokens.len())..];
    &rest[..count.min(rest.len())]
}
