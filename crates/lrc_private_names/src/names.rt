// How the private names of a text are spelled.

ghost use Rattle.std.specs.Prelude.{◌≡◌, ◌≤◌, [], IfOk, OnOk, length, map};
ghost use Rattle.lrc_lang.specs.Parser.View.{lexeme_of};
ghost use Rattle.lrc_lang.specs.Symbol.{is_among, names_with};
ghost use Rattle.lrc_lang.specs.Token.{name};
ghost use Rattle.lrc_private_names.specs.Spelling.{AreNamesOf, names_through, spelling};

use lrc_lang::positions::positions_of;
use lrc_lang::token::{Lexeme, Token};
use std::alloc::{AllocError, Global};

/// Returns the different private names of a text of at most 65,536 bytes, in the order in which they first occur. It
/// fails if memory runs out.
pub fn names_of(alloc: Global, text: &[u8]) -> Result<Vec<&[u8]>, AllocError>
    requires { length text.now ≤ 65536 }
    ensures { IfOk result (λ names. AreNamesOf text.now (map (λ name. name.now) names.items)) }
{
    let all = positions_of(alloc, text)?;
    let mut names = Vec::new(alloc);
    for found in &all {
        keep(&mut names, found.lexeme)?;
    }
    Ok(names)
}

// Keeps the name that this is, unless it is among these.
fn keep<'t>(names: &mut Vec<&'t [u8]>, found: Lexeme<'t>) -> Result<(), AllocError>
    ensures { OnOk result (map (λ name. name.now) names.new.items
        ≡ names_through (map (λ name. name.now) names.old.items) (lexeme_of found.entry)) }
{
    match found {
        Lexeme::Token(Token::Name(bytes)) => keep_name(names, bytes),
        _ => Ok(()),
    }
}

fn keep_name<'t>(names: &mut Vec<&'t [u8]>, bytes: &'t [u8]) -> Result<(), AllocError>
    ensures { OnOk result (map (λ name. name.now) names.new.items
        ≡ names_with (map (λ name. name.now) names.old.items) (name bytes.entry.now)) }
{
    if is_among(names, bytes) {
        return Ok(());
    }
    names.push(bytes)?;
    Ok(())
}

// Whether a name is among these.
fn is_among(names: &[&[u8]], name: &[u8]) -> bool
    ensures { result ≡ is_among (map (λ other. other.now) names.now) name.now }
{
    names.iter().any(|other| *other == name)
}

/// Returns the spelling of the name with this number, which is empty if no name has it.
pub fn spelling<'t>(names: &[&'t [u8]], name: usize) -> &'t [u8]
    ensures { result.now ≡ spelling (map (λ name. name.now) names.now) name }
{
    if name < names.len() { names[name] } else { b"" }
}
