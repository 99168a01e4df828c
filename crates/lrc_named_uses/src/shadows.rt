// The tokens that are parameters of the functions that they belong to.

ghost use Rattle.std.specs.Prelude.{◌≡◌, ◌&&◌, IfOk, OnOk, length, map, nat_le};
ghost use Rattle.lrc_named_tokens.specs.View.{lexeme_of};
ghost use Rattle.lrc_named_tree.specs.View.{declaration_of, named_of};
ghost use Rattle.lrc_named_constants.specs.Well.{bytes_of};
ghost use Rattle.lrc_named_uses.specs.Shadows.{AreShadows, IsMarked, is_in, is_shadow_of};

use lrc_named_expression_faults::spelled::Spelled;
use lrc_named_tokens::token::{Lexeme, Located, Token};
use lrc_named_tree::tree::Declaration;
use std::alloc::{AllocError, Global};

/// Returns of each token whether it is a parameter of a function that it belongs to. It fails only if memory runs out.
pub(crate) fn shadows_of(
    alloc: Global,
    tokens: &[Located<'_>],
    declarations: &[Declaration<'_>],
) -> Result<Vec<bool>, AllocError>
    ensures { IfOk result (λ shadows. AreShadows tokens.now
        (map declaration_of declarations.now) shadows.items) }
{
    let mut shadows = Vec::new(alloc);
    shadows.resize(tokens.len(), false)?;
    for declaration in declarations {
        mark(&mut shadows, alloc, tokens, declaration)?;
    }
    Ok(shadows)
}

// Marks the tokens that are parameters of a function that is declared here.
fn mark(
    shadows: &mut Vec<bool>,
    alloc: Global,
    tokens: &[Located<'_>],
    declaration: &Declaration<'_>,
) -> Result<(), AllocError>
    requires { length shadows.old.items ≡ length tokens.now }
    ensures { OnOk result (IsMarked tokens.now
        (λ at lexeme. is_shadow_of at lexeme (declaration_of declaration.now))
        shadows.old.items shadows.new.items) }
{
    match declaration {
        Declaration::Function(_, function, parameters, body) => {
            let own = Spelled::of(alloc, parameters)?;
            mark_within(shadows, tokens, function.at, body.last(), &own);
            Ok(())
        }
        Declaration::Nodes(_, _) => Ok(()),
        Declaration::Const(_, _, _) => Ok(()),
        Declaration::Shared(_, _) => Ok(()),
        Declaration::Lock(_, _) => Ok(()),
    }
}

// Marks these names from the first to the last token.
fn mark_within(
    shadows: &mut Vec<bool>,
    tokens: &[Located<'_>],
    first: u32,
    last: u32,
    names: &Spelled<'_, '_>,
)
    requires { length shadows.old.items ≡ length tokens.now }
    ensures { IsMarked tokens.now
        (λ at lexeme. (nat_le first at && nat_le at last)
        && is_in (bytes_of (map named_of names.now.names.now)) lexeme)
        shadows.old.items shadows.new.items }
{
    let end = (last as usize + 1).min(tokens.len());
    for i in first as usize..end {
        if is_in(names, tokens[i].lexeme) {
            shadows[i] = true;
        }
    }
}

// Whether this is one of these names.
fn is_in(names: &Spelled<'_, '_>, lexeme: Lexeme<'_>) -> bool
    ensures { result ≡ is_in (bytes_of (map named_of names.now.names.now)) (lexeme_of lexeme.entry) }
{
    match lexeme {
        Lexeme::Token(Token::Name(bytes)) => names.has(bytes),
        _ => false,
    }
}
