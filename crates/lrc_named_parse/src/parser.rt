// The parser: from a text to its tree.

ghost use Rattle.std.specs.Prelude.{◌≡◌, ◌⊎◌, ◌≤◌, List, [], map, length, IfOk, IfErr, OnOk, MatchResult};
ghost use Rattle.lrc_lang.specs.declared.fault.FaultKind.{FaultKind as KindSeen};
ghost use Rattle.lrc_lang.specs.declared.fault.FaultKind.TheVariants.{NoMemory};
ghost use Rattle.lrc_named_parse.specs.Faults.{IsNamed, HasProgram, IsFirstFault, HasFirstFault};
ghost use Rattle.lrc_named_parse.specs.SeenParser.{TakesLexeme, AreOfText};
ghost use Rattle.lrc_named_parse.specs.SeenState.{state_seen};
ghost use Rattle.lrc_named_parse.specs.State.{start, program_in, IsEnded};
ghost use Rattle.lrc_named_tokens.specs.Token.{Located as LocatedSeen, Place as PlaceSeen};
ghost use Rattle.lrc_named_tokens.specs.Lexemes.{beginning};
ghost use Rattle.lrc_named_tokens.specs.View.{lexeme_of, located_of, place_of};
ghost use Rattle.lrc_named_tree.specs.Tree.{NamedTree};
ghost use Rattle.lrc_named_tree.specs.View.{program_of};

use crate::limits::Limits;
use crate::state::State;
use lrc_lang::fault::FaultKind;
use lrc_named_tokens::token::{Lexeme, Located, Place};
use lrc_named_tokens::tokens_of;
use lrc_named_tree::tree::NamedProgram;
use std::alloc::Global;

/// How many bytes a text may have.
pub const MOST_BYTES: usize = 65_536;

/// A named program, and the tokens of its text, by whose places its tree is told.
#[derive(Drop)]
pub struct Parsed<'t> {
    pub program: NamedProgram<'t>,
    pub tokens: Vec<Located<'t>>,
}

/// The first fault of a text as such, and the place of the token that has it. If memory ran out, the place says nothing.
#[derive(Clone, Copy)]
pub struct TextFault {
    pub place: Place,
    pub kind: FaultKind,
}

/// Parses a text of at most 65,536 bytes, in one pass from the left. The parser keeps the trees so far, and what is open
/// around the current token. It does not recurse, however deep the text nests.
pub fn parse(alloc: Global, text: &[u8]) -> Result<Parsed<'_>, TextFault>
    // The program is that of the text, and the tokens are those of the text.
    ensures program { IfOk result (λ p. IsNamed text.now (map located_of p.tokens.items)
        (program_of p.program)) }
    // Any other answer is the first fault of the text, with its place, unless memory ran out.
    ensures fault { IfErr result (λ e. (e.kind ≡ NoMemory)
        ⊎ HasFirstFault text.now (place_of e.place) e.kind) }
    // A text that is a named program has no other answer than that program.
    ensures of_program { (all : List LocatedSeen) (p : NamedTree) → IsNamed text.now all p →
        MatchResult result (λ found. program_of found.program ≡ p) (λ e. e.kind ≡ NoMemory) }
    // A text that has a first fault has no other answer than that fault.
    ensures of_fault { (place : PlaceSeen) (kind : KindSeen) → HasFirstFault text.now place kind →
        MatchResult result (λ _. ⊥) (λ e. (e.kind ≡ NoMemory)
        ⊎ ((place_of e.place ≡ place) × (e.kind ≡ kind))) }
{
    if text.len() > MOST_BYTES {
        return Err(at_the_beginning(FaultKind::TooLong));
    }
    read(alloc, text)
}

// Parses a text that is not too long.
fn read(alloc: Global, text: &[u8]) -> Result<Parsed<'_>, TextFault>
    requires { length text.now ≤ 65536 }
    ensures program { IfOk result (λ p. IsNamed text.now (map located_of p.tokens.items)
        (program_of p.program)) }
    ensures fault { IfErr result (λ e. (e.kind ≡ NoMemory)
        ⊎ HasFirstFault text.now (place_of e.place) e.kind) }
{
    match tokens_of(alloc, text) {
        Ok(tokens) => read_tokens(alloc, tokens),
        Err(_) => Err(at_the_beginning(FaultKind::NoMemory)),
    }
}

// Parses a text that has these lexemes.
fn read_tokens<'t>(alloc: Global, tokens: Vec<Located<'t>>) -> Result<Parsed<'t>, TextFault>
    requires { AreOfText (map located_of tokens.items) }
    ensures same { IfOk result (λ p. p.tokens.items ≡ tokens.entry.items) }
    ensures program { IfOk result (λ p. HasProgram (map located_of tokens.entry.items) (program_of p.program)) }
    ensures fault { IfErr result (λ e. (e.kind ≡ NoMemory)
        ⊎ IsFirstFault [] (map located_of tokens.entry.items) (place_of e.place) e.kind) }
{
    let mut state = State::start(alloc);
    read_into(&mut state, tokens)
}

// Parses a text that has these lexemes, from the state of a text of which nothing has come.
fn read_into<'t>(state: &mut State<'t>, tokens: Vec<Located<'t>>) -> Result<Parsed<'t>, TextFault>
    requires start { state_seen state.old ≡ start }
    requires of_text { AreOfText (map located_of tokens.items) }
    ensures same { IfOk result (λ p. p.tokens.items ≡ tokens.entry.items) }
    ensures program { IfOk result (λ p. HasProgram (map located_of tokens.entry.items) (program_of p.program)) }
    ensures fault { IfErr result (λ e. (e.kind ≡ NoMemory)
        ⊎ IsFirstFault [] (map located_of tokens.entry.items) (place_of e.place) e.kind) }
{
    take_all(state, &tokens)?;
    let program = state.take_program();
    Ok(Parsed { program, tokens })
}

// Takes all that stands in a text, up to its end.
fn take_all<'t>(state: &mut State<'t>, all: &[Located<'t>]) -> Result<(), TextFault>
    requires start { state_seen state.old ≡ start }
    requires of_text { AreOfText (map located_of all.now) }
    ensures ended { OnOk result (IsEnded (state_seen state.new).stage) }
    ensures program { OnOk result (HasProgram (map located_of all.now) (program_in (state_seen state.new))) }
    ensures fault { IfErr result (λ e. (e.kind ≡ NoMemory)
        ⊎ IsFirstFault [] (map located_of all.now) (place_of e.place) e.kind) }
{
    let mut limits = Limits::empty();
    let mut at = 0;
    for found in all {
        if let Err(kind) = take(state, &mut limits, at, found.lexeme) {
            return Err(TextFault {
                place: found.place,
                kind,
            });
        }
        at += 1;
    }
    Ok(())
}

/// Takes what stands next, with so many lexemes before it. It fails with its fault, or if memory runs out.
pub fn take<'t>(
    state: &mut State<'t>,
    limits: &mut Limits,
    at: u32,
    lexeme: Lexeme<'t>,
) -> Result<(), FaultKind>
    ensures { TakesLexeme result state.old limits.old at (lexeme_of lexeme.entry) state.new
        limits.new }
{
    match lexeme {
        Lexeme::Token(token) => {
            state.take(at, token)?;
            limits.take(token)
        }
        Lexeme::BadByte => Err(FaultKind::BadByte),
        Lexeme::BadNumber => Err(FaultKind::BadNumber),
    }
}

// A fault of a whole text, which is told at its first byte.
fn at_the_beginning(kind: FaultKind) -> TextFault
    ensures kind { result.kind ≡ kind }
    ensures place { place_of result.place ≡ beginning }
{
    TextFault {
        place: Place {
            line: 1,
            column: 1,
            offset: 0,
        },
        kind,
    }
}
