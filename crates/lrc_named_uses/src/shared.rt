// Names by which shared items are read.

ghost use Rattle.std.specs.Prelude.{◌≡◌, Some, map};
ghost use Rattle.lrc_named_tokens.specs.View.{lexeme_of, located_of};
ghost use Rattle.lrc_named_tree.specs.View.{expression_of, named_of};
ghost use Rattle.lrc_named_names.specs.View.{declared_of, meaning_seen};
ghost use Rattle.lrc_named_uses.specs.Shared.{has_shared, is_read, is_shared, is_shared_in, some_shared};
ghost use Rattle.lrc_named_constants.specs.Well.{bytes_of};

use crate::names::tokens_in;
use lrc_named_expression_faults::scope::is_one_of;
use lrc_named_names::names::{Meaning, Names};
use lrc_named_tokens::token::{Lexeme, Located, Token};
use lrc_named_tree::tree::{Expression, Name};

/// Returns whether a shared item stands in an expression, or in the body of a function that it calls, and so on.
pub(crate) fn has_shared(
    names: &Names<'_, '_>,
    tokens: &[Located<'_>],
    expression: &Expression<'_>,
) -> bool
    ensures { result ≡ has_shared (declared_of names.now) (map located_of tokens.now)
        (expression_of expression.now) }
{
    some_shared(
        names,
        tokens,
        names.declared.len(),
        &[],
        tokens_in(tokens, expression),
    )
}

// Whether a name is that of a shared item, or of a function in whose body one stands, and so on, over so many names.
#[cycle(shared)]
fn is_shared(names: &Names<'_, '_>, tokens: &[Located<'_>], depth: usize, name: &[u8]) -> bool
    ensures { result ≡ is_shared (declared_of names.now) (map located_of tokens.now) depth name.now }
{
    if depth == 0 {
        return false;
    }
    match names.meaning(names.place(name)) {
        Some(meaning) => is_read(names, tokens, depth - 1, meaning),
        None => false,
    }
}

// Whether what is meant is a shared item, or a function in whose body some name but its parameters is such a one.
#[cycle(shared)]
fn is_read(
    names: &Names<'_, '_>,
    tokens: &[Located<'_>],
    depth: usize,
    meaning: &Meaning<'_, '_>,
) -> bool
    ensures { result ≡ is_read (is_shared (declared_of names.now) (map located_of tokens.now) depth)
        (map located_of tokens.now) (Some (meaning_seen meaning.now)) }
{
    match meaning {
        Meaning::Shared(_) => true,
        Meaning::Function(parameters, body) => {
            some_shared(names, tokens, depth, parameters, tokens_in(tokens, body))
        }
        Meaning::Constant(_) | Meaning::Lock(_) => false,
    }
}

// Whether some name among these tokens that is no parameter is such a one.
#[cycle(shared)]
fn some_shared(
    names: &Names<'_, '_>,
    tokens: &[Located<'_>],
    depth: usize,
    parameters: &[Name<'_>],
    some: &[Located<'_>],
) -> bool
    ensures { result ≡ some_shared (declared_of names.now) (map located_of tokens.now) depth
        (bytes_of (map named_of parameters.now)) (map located_of some.now) }
{
    for found in some {
        if is_shared_in(names, tokens, depth, parameters, found.lexeme) {
            return true;
        }
    }
    false
}

#[cycle(shared)]
fn is_shared_in(
    names: &Names<'_, '_>,
    tokens: &[Located<'_>],
    depth: usize,
    parameters: &[Name<'_>],
    lexeme: Lexeme<'_>,
) -> bool
    ensures { result ≡ is_shared_in (declared_of names.now) (map located_of tokens.now) depth
        (bytes_of (map named_of parameters.now)) (lexeme_of lexeme.entry) }
{
    match lexeme {
        Lexeme::Token(Token::Name(name)) => {
            !is_one_of(parameters, name) && is_shared(names, tokens, depth, name)
        }
        _ => false,
    }
}
