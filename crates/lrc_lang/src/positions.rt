// Where what stands in a text begins.

ghost use Rattle.std.specs.Prelude.{◌≡◌, ◌↔◌, ◌<◌, ◌≤◌, ◌+◌, length, map, fold, IfOk, IsTrue};
ghost use Rattle.lrc_lang.specs.Positions.{HasLocated, with_byte};
ghost use Rattle.lrc_lang.specs.Parser.Located.{located_of};
ghost use Rattle.lrc_lang.specs.Parser.Past.{GoesOn};
ghost use Rattle.lrc_lang.specs.Parser.View.{lexeme_of};

use crate::lexer::Lexer;
use crate::token::{Lexeme, Token};
use std::alloc::{AllocError, Global};

/// A lexeme of a text, and where its first byte is.
#[derive(Clone, Copy)]
pub struct Located<'t> {
    /// The line, counted from 1 by line feeds.
    pub line: u32,
    /// The column, counted from 1 in bytes.
    pub column: u32,
    /// How many bytes of the text come before it.
    pub offset: u32,
    pub lexeme: Lexeme<'t>,
}

/// Returns the lexemes of a text of at most 65,536 bytes with their positions: its tokens up to the end, or up to the
/// first bad byte or number. It fails only if memory runs out.
pub fn positions_of(alloc: Global, text: &[u8]) -> Result<Vec<Located<'_>>, AllocError>
    requires { length text.now ≤ 65536 }
    ensures { IfOk result (λ all. HasLocated text.now (map located_of all.items)) }
{
    let mut all = Vec::new(alloc);
    let mut lexer = Lexer::new(text);
    let mut offset = 0;
    let mut behind = 0;
    loop {
        let met = lexer.next_met();
        let next = text.len() - met.left;
        behind = behind_line_feed(behind, &text[offset..next]);
        offset = next;
        all.push(Located {
            line: met.found.line,
            column: behind + 1,
            offset: offset as u32,
            lexeme: met.found.lexeme,
        })?;
        if !goes_on(met.found.lexeme) {
            return Ok(all);
        }
    }
}

// How many bytes stand behind the last line feed, where that many stood there before these bytes.
fn behind_line_feed(before: u32, bytes: &[u8]) -> u32
    requires { before + length bytes.now < 65537 }
    ensures value { result ≡ fold with_byte before bytes.now }
    ensures bound { result ≤ before + length bytes.now }
{
    let mut count = before;
    for byte in bytes {
        count = if *byte == b'\n' { 0 } else { count + 1 };
    }
    count
}

// Whether the text goes on behind this.
fn goes_on(lexeme: Lexeme<'_>) -> bool
    ensures { IsTrue result ↔ GoesOn (lexeme_of lexeme.entry) }
{
    match lexeme {
        Lexeme::Token(Token::End) | Lexeme::BadByte | Lexeme::BadNumber => false,
        Lexeme::Token(_) => true,
    }
}
