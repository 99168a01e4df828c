// The parser: from a text to its trees.

ghost use Rattle.std.specs.Prelude.{◌≡◌, ◌≢◌, ◌≤◌, ◌⊎◌, ◌↔◌, ℕ, List, length, IsTrue};
ghost use Rattle.std.specs.Prelude.{IfOk, IfErr, OnOk, MatchResult};
ghost use Rattle.lrc_lang.specs.declared.fault.FaultKind.{FaultKind};
ghost use Rattle.lrc_lang.specs.declared.fault.FaultKind.TheVariants.{NoMemory};
ghost use Rattle.lrc_lang.specs.Faults.{IsText, HasFirstFault};
ghost use Rattle.lrc_lang.specs.Grammar.{IsProgram};
ghost use Rattle.lrc_lang.specs.Parser.SeenParser.{IsOutOfMemory, TakesLexeme};
ghost use Rattle.lrc_lang.specs.Parser.SeenState.{state_seen};
ghost use Rattle.lrc_lang.specs.Parser.State.{start, program_in};
ghost use Rattle.lrc_program.specs.Sizes.{names_in, depth_of, most_operators};
ghost use Rattle.lrc_lang.specs.Token.{Token as TokenSeen, token, finish};
ghost use Rattle.lrc_program.specs.Tree.{ProgramTree, program_of};
ghost use Rattle.lrc_lang.specs.Parser.View.{lexeme_of};

use crate::fault::{FaultKind, ParseFault};
use crate::lexer::Lexer;
use crate::limits::Limits;
use crate::state::ParserState;
use crate::token::{Lexeme, Token};
use lrc_program::Program;
use std::alloc::Global;

/// How many bytes a text may have.
pub const MOST_BYTES: usize = 65_536;

/// Parses a text of at most 65,536 bytes, in one pass from the left. The parser keeps the trees so far, at most 32
/// names, and what is open around the current token. It does not recurse, however deep the text nests.
pub fn parse(alloc: Global, text: &[u8]) -> Result<Program, ParseFault>
    // The program is that of the text.
    ensures program { IfOk result (λ p. IsText text.now (program_of p)) }
    // Any other answer is the first fault of the text, with its line, unless memory ran out.
    ensures fault { IfErr result (λ e. IsOutOfMemory e ⊎ HasFirstFault text.now e.line e.kind) }
    // A text that is a program has no other answer than that program.
    ensures of_program { (p : ProgramTree) → IsText text.now p →
        MatchResult result (λ found. program_of found ≡ p) IsOutOfMemory }
    // A text that has a first fault has no other answer than that fault.
    ensures of_fault { (line : ℕ) (kind : FaultKind) → HasFirstFault text.now line kind →
        MatchResult result (λ _. ⊥) (λ e. IsOutOfMemory e ⊎ ((e.line ≡ line) × (e.kind ≡ kind))) }
{
    if text.len() > MOST_BYTES {
        return Err(ParseFault {
            line: 1,
            kind: FaultKind::TooLong,
        });
    }
    read(alloc, text)
}

// Parses a text that is not too long.
fn read(alloc: Global, text: &[u8]) -> Result<Program, ParseFault>
    requires { length text.now ≤ 65536 }
    ensures program { IfOk result (λ p. IsText text.now (program_of p)) }
    ensures fault { IfErr result (λ e. IsOutOfMemory e ⊎ HasFirstFault text.now e.line e.kind) }
{
    let mut state = ParserState::start(alloc);
    read_from(&mut state, alloc, text)
}

// Parses a text that is not too long, from the state of a text of which nothing has come.
fn read_from(state: &mut ParserState, alloc: Global, text: &[u8]) -> Result<Program, ParseFault>
    requires start { state_seen state.old ≡ start }
    requires short { length text.now ≤ 65536 }
    ensures program { IfOk result (λ p. IsText text.now (program_of p)) }
    ensures fault { IfErr result (λ e. IsOutOfMemory e ⊎ HasFirstFault text.now e.line e.kind) }
{
    read_into(state, alloc, text)?;
    Ok(state.take_program())
}

// Takes all that stands in a text that is not too long.
fn read_into(state: &mut ParserState, alloc: Global, text: &[u8]) -> Result<(), ParseFault>
    requires start { state_seen state.old ≡ start }
    requires short { length text.now ≤ 65536 }
    ensures program { OnOk result (IsText text.now (program_in (state_seen state.new))) }
    ensures fault { IfErr result (λ e. IsOutOfMemory e ⊎ HasFirstFault text.now e.line e.kind) }
{
    let mut lexer = Lexer::new(text);
    let mut limits = Limits::empty(alloc);
    loop {
        let found = lexer.next_lexeme();
        if let Err(kind) = take(state, &mut limits, found.lexeme) {
            return Err(fault(found.line, kind));
        }
        if is_end(found.lexeme) {
            return Ok(());
        }
    }
}

/// Takes the next lexeme.
pub fn take<'t>(
    state: &mut ParserState,
    limits: &mut Limits<'t>,
    lexeme: Lexeme<'t>,
) -> Result<(), FaultKind>
    ensures { TakesLexeme result state.old limits.old
        (lexeme_of lexeme.entry) state.new limits.new }
{
    match lexeme {
        Lexeme::Token(token) => {
            state.take(limits.symbol(token))?;
            limits.take(token)
        }
        Lexeme::BadByte => Err(FaultKind::BadByte),
        Lexeme::BadNumber => Err(FaultKind::BadNumber),
    }
}

// Whether this is the end of the text.
fn is_end(lexeme: Lexeme<'_>) -> bool
    ensures { IsTrue result ↔ (lexeme_of lexeme.entry ≡ token finish) }
{
    matches!(lexeme, Lexeme::Token(Token::End))
}

// The fault of this kind of a token on this line. Where memory ran out it is on no line.
fn fault(line: u32, kind: FaultKind) -> ParseFault
    ensures kind { result.kind ≡ kind }
    ensures line { kind ≢ NoMemory → result.line ≡ line }
    ensures no_line { kind ≡ NoMemory → result.line ≡ 0 }
{
    match kind {
        FaultKind::NoMemory => ParseFault { line: 0, kind },
        _ => ParseFault { line, kind },
    }
}

/// A list of tokens is that of at most one program.
pub fn tokens_are_of_one_program()
    ensures { (tokens : List TokenSeen) (p q : ProgramTree) →
        IsProgram p tokens → IsProgram q tokens → p ≡ q }
{}

/// The program of a text has at most 32 private names, nests its blocks at most 32 deep, and has at most 256 operators
/// in each expression. It has 1 to 65,536 words of shared memory and at most 64 locks.
pub fn texts_are_within_the_limits()
    ensures sizes { (text : List ℕ) (p : ProgramTree) → IsText text p → (names_in p.statements ≤ 32)
        × (depth_of p.statements ≤ 32) × (most_operators p.statements ≤ 256) }
    ensures shared { (text : List ℕ) (p : ProgramTree) → IsText text p →
        (1 ≤ p.words) × (p.words ≤ 65536) × (p.locks ≤ 64) }
{}
