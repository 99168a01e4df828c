// Where names are used.

ghost use Rattle.std.specs.Prelude.{◌≡◌, IfOk, OnOk, map};
ghost use Rattle.std.specs.Option.{option_copied};
ghost use Rattle.std.specs.Str.{bytes_eq};
ghost use Rattle.lrc_named_tokens.specs.View.{lexeme_of, located_of};
ghost use Rattle.lrc_named_tree.specs.View.{declaration_of, named_of};
ghost use Rattle.lrc_named_uses.specs.Names.{is_name};
ghost use Rattle.lrc_named_uses.specs.Spots.{AddsSpot, AreSpots, is_found, with_spot};

use crate::shadows::shadows_of;
use lrc_named_tokens::token::{Lexeme, Located, Token};
use lrc_named_tree::tree::{Declaration, Name};
use std::alloc::{AllocError, Global};
use std::collections::HashMap;

/// Where a name is used.
#[derive(Clone, Copy)]
pub(crate) enum Spots {
    /// At this token alone.
    One(usize),
    /// At more than one.
    More,
}

/// Returns where each name is used that is no parameter there. It fails only if memory runs out.
pub(crate) fn spots_of<'t>(
    alloc: Global,
    tokens: &[Located<'t>],
    declarations: &[Declaration<'_>],
) -> Result<HashMap<&'t [u8], Spots>, AllocError>
    ensures { IfOk result (λ spots. AreSpots (map located_of tokens.now)
        (map declaration_of declarations.now) spots) }
{
    let shadows = shadows_of(alloc, tokens, declarations)?;
    let mut spots = HashMap::new(alloc);
    for i in (0..tokens.len()).rev() {
        if !shadows[i] {
            put(&mut spots, tokens[i].lexeme, i)?;
        }
    }
    Ok(spots)
}

// Adds a token, if it is a name.
fn put<'t>(
    spots: &mut HashMap<&'t [u8], Spots>,
    lexeme: Lexeme<'t>,
    at: usize,
) -> Result<(), AllocError>
    ensures { OnOk result (AddsSpot (λ bytes. is_name bytes (lexeme_of lexeme.entry)) at
        spots.old spots.new) }
{
    match lexeme {
        Lexeme::Token(Token::Name(bytes)) => put_name(spots, bytes, at),
        _ => Ok(()),
    }
}

// Adds a token that is this name.
fn put_name<'t>(
    spots: &mut HashMap<&'t [u8], Spots>,
    name: &'t [u8],
    at: usize,
) -> Result<(), AllocError>
    ensures { OnOk result (AddsSpot (λ bytes. bytes_eq name.entry.now bytes) at
        spots.old spots.new) }
{
    let all = with_spot(spots.get(name), at);
    spots.insert(name, all)?;
    Ok(())
}

// Where a name is used that is used at one token more.
fn with_spot(before: Option<&Spots>, at: usize) -> Spots
    ensures { result ≡ with_spot (option_copied before.entry) at }
{
    match before {
        None => Spots::One(at),
        Some(Spots::One(other)) => {
            if *other == at {
                Spots::One(at)
            } else {
                Spots::More
            }
        }
        Some(Spots::More) => Spots::More,
    }
}

/// Returns whether a name is used anywhere but where it is declared.
pub(crate) fn is_found(spots: &HashMap<&[u8], Spots>, name: Name<'_>) -> bool
    ensures { result ≡ is_found spots.now (named_of name.entry) }
{
    match spots.get(name.bytes) {
        None => false,
        Some(Spots::One(at)) => *at != name.at as usize,
        Some(Spots::More) => true,
    }
}
