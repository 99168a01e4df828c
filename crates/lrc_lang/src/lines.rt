// On which lines the statements of a text begin.

ghost use Rattle.std.specs.Prelude.{◌≡◌, ◌++◌, ◌↔◌, ◌≤◌, ℕ, false, List, length, IfOk, OnOk, IsTrue};
ghost use Rattle.lrc_lang.specs.Faults.{IsText};
ghost use Rattle.lrc_lang.specs.Lexemes.{Lexes};
ghost use Rattle.lrc_lang.specs.Lines.{HasLines};
ghost use Rattle.lrc_lang.specs.Parser.Marked.{is_seam, is_marked, marks, marked};
ghost use Rattle.lrc_lang.specs.Parser.Past.{GoesOn};
ghost use Rattle.lrc_lang.specs.Parser.View.{lexeme_of, placed_of};
ghost use Rattle.lrc_lang.specs.Token.{Placed as PlacedSeen};
ghost use Rattle.lrc_program.specs.Tree.{ProgramTree};

use crate::lexer::Lexer;
use crate::parser::MOST_BYTES;
use crate::token::{Keyword, Lexeme, Placed, Sign, Token};
use std::alloc::{AllocError, Global};

/// Returns the line of each statement of a text, in the order of the text, and then the line of the text's end. The
/// line of a statement is the line on which its first token begins. The lines of its blocks come after it, those of the
/// first block of an `if` before those of the second. If the text is no program, the lines mean nothing; if it is too
/// long, there are none. It fails only if memory runs out.
pub fn lines_of(alloc: Global, text: &[u8]) -> Result<Vec<u32>, AllocError>
    ensures { (p : ProgramTree) → IsText text.now p
        → IfOk result (λ lines. HasLines text.now p lines.items) }
{
    if text.len() > MOST_BYTES {
        return Ok(Vec::new(alloc));
    }
    marked(alloc, text)
}

// The lines of what begins a statement, by the token before, and of the end of the text.
fn marked(alloc: Global, text: &[u8]) -> Result<Vec<u32>, AllocError>
    requires { length text.now ≤ 65536 }
    ensures { (all : List PlacedSeen) → Lexes 1 text.now all
        → IfOk result (λ lines. lines.items ≡ marked false all) }
{
    let mut lines = Vec::new(alloc);
    let mut lexer = Lexer::new(text);
    let mut behind_seam = false;
    loop {
        let found = lexer.next_lexeme();
        mark(&mut lines, behind_seam, found)?;
        if !goes_on(found.lexeme) {
            return Ok(lines);
        }
        behind_seam = is_seam(found.lexeme);
    }
}

// Keeps the line of what stands next, if it is marked.
fn mark(lines: &mut Vec<u32>, behind_seam: bool, found: Placed<'_>) -> Result<(), AllocError>
    ensures { OnOk result (lines.new.items
        ≡ lines.old.items ++ marks behind_seam (placed_of found.entry)) }
{
    if is_marked(behind_seam, found.lexeme) {
        lines.push(found.line)?;
    }
    Ok(())
}

// Whether this begins a statement, or is the end of the text.
fn is_marked(behind_seam: bool, lexeme: Lexeme<'_>) -> bool
    ensures { result ≡ is_marked behind_seam (lexeme_of lexeme.entry) }
{
    match lexeme {
        Lexeme::Token(Token::End) => true,
        Lexeme::Token(Token::Keyword(Keyword::Else | Keyword::Locks)) => false,
        Lexeme::Token(Token::Sign(Sign::CloseBrace)) => false,
        _ => behind_seam,
    }
}

// Whether a statement may begin behind this.
fn is_seam(lexeme: Lexeme<'_>) -> bool
    ensures { result ≡ is_seam (lexeme_of lexeme.entry) }
{
    matches!(
        lexeme,
        Lexeme::Token(Token::Sign(Sign::Semicolon | Sign::OpenBrace | Sign::CloseBrace))
    )
}

// Whether this is a token behind which the text goes on.
fn goes_on(lexeme: Lexeme<'_>) -> bool
    ensures { IsTrue result ↔ GoesOn (lexeme_of lexeme.entry) }
{
    match lexeme {
        Lexeme::Token(Token::End) | Lexeme::BadByte | Lexeme::BadNumber => false,
        Lexeme::Token(_) => true,
    }
}

/// A text has only one list of lines.
pub fn lines_are_of_one_text()
    ensures { (text : List ℕ) (p q : ProgramTree) (lines others : List ℕ) → HasLines text p lines
        → HasLines text q others → lines ≡ others }
{}
