// The tokens of a text.

ghost use Rattle.std.specs.Prelude.{◌≤◌, ◌↔◌, length, map, IfOk, IsTrue};
ghost use Rattle.lrc_named_tokens.specs.Lexemes.{HasLexemes};
ghost use Rattle.lrc_named_tokens.specs.Lexer.{GoesOn};
ghost use Rattle.lrc_named_tokens.specs.View.{lexeme_of, located_of};

use crate::lexer::Lexer;
use crate::token::{Lexeme, Located, Token};
use std::alloc::{AllocError, Global};

/// Returns the lexemes of a text of at most 65,536 bytes with their places: its tokens up to the end, or up to the first
/// bad byte or number. It fails only if memory runs out.
pub fn tokens_of(alloc: Global, text: &[u8]) -> Result<Vec<Located<'_>>, AllocError>
    requires { length text.now ≤ 65536 }
    ensures { IfOk result (λ all. HasLexemes text.now (map located_of all.items)) }
{
    let mut all = Vec::new(alloc);
    let mut lexer = Lexer::new(text);
    loop {
        let found = lexer.next_lexeme();
        all.push(found)?;
        if !goes_on(found.lexeme) {
            return Ok(all);
        }
    }
}

// Whether the text goes on behind this.
fn goes_on(lexeme: Lexeme<'_>) -> bool
    ensures { IsTrue result ↔ GoesOn (lexeme_of lexeme.entry) }
{
    match lexeme {
        Lexeme::Token(Token::End) | Lexeme::BadByte | Lexeme::BadNumber => false,
        Lexeme::Token(_) => true,
    }
}
