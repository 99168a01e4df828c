// What a hint on a fault of a name goes by.

ghost use Rattle.std.specs.Prelude.{◌≡◌, map};
ghost use Rattle.std.specs.List.{list_any};
ghost use Rattle.std.specs.Option.{option_map};
ghost use Rattle.lrc_named_name_hints.specs.Seen.{line_of, name_at, name_in, seen_of};
ghost use Rattle.lrc_named_tokens.specs.View.{lexeme_of};
ghost use Rattle.lrc_named_name_hints.specs.Hints.{is_entry, is_name};
ghost use Rattle.lrc_named_entries.specs.View.{entry_seen};
ghost use Rattle.lrc_named_tree.specs.View.{named_of};

use lrc_named_entries::entry::Entry;
use lrc_named_tokens::token::{Lexeme, Located, Token};
use lrc_named_tree::tree::Name;

/// What a hint on a fault of a name goes by.
#[derive(Clone, Copy)]
pub struct Seen<'t> {
    /// The tokens of the text.
    pub tokens: &'t [Located<'t>],
    /// The names that are declared in it.
    pub entries: &'t [Entry<'t>],
    /// The parameters of the function that the token at fault belongs to.
    pub parameters: &'t [Name<'t>],
    /// Which token the first `nodes` declaration begins with, if there is one.
    pub counted: Option<u32>,
    /// The token at fault.
    pub at: usize,
}

impl<'t> Seen<'t> {
    /// Returns the name at fault, if the token at fault is a name.
    pub fn name(&self) -> Option<&'t [u8]>
        ensures { option_map (λ name. name.now) result ≡ name_at (seen_of self.now) }
    {
        match self.tokens.get(self.at) {
            Some(found) => name_of(found.lexeme),
            None => None,
        }
    }

    /// Returns the line of a token.
    pub fn line(&self, at: u32) -> u32
        ensures { result ≡ line_of (seen_of self.now) at }
    {
        match self.tokens.get(at as usize) {
            Some(found) => found.place.line,
            None => 0,
        }
    }
}

/// Returns the name that this is.
pub fn name_of(lexeme: Lexeme<'_>) -> Option<&[u8]>
    ensures { option_map (λ name. name.now) result ≡ name_in (lexeme_of lexeme.entry) }
{
    match lexeme {
        Lexeme::Token(Token::Name(name)) => Some(name),
        _ => None,
    }
}

/// Returns whether a name is that of a parameter.
pub fn is_parameter(seen: &Seen<'_>, name: &[u8]) -> bool
    ensures { result ≡ list_any (is_name name.now) (map named_of seen.now.parameters.now) }
{
    for parameter in seen.parameters {
        if is_name(name, *parameter) {
            return true;
        }
    }
    false
}

fn is_name(name: &[u8], place: Name<'_>) -> bool
    ensures { result ≡ is_name name.now (named_of place.entry) }
{
    place.bytes == name
}

/// Returns whether this declares a name.
pub fn is_entry(name: &[u8], entry: &Entry<'_>) -> bool
    ensures { result ≡ is_entry name.now (entry_seen entry.now) }
{
    entry.name.bytes == name
}
