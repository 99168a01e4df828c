// The first fault of a text, where it is, and what may stand there.

ghost use Rattle.std.specs.Prelude.{◌≡◌, ◌≤◌, ℕ, [], List, length, map, IfOk, MatchOption};
ghost use Rattle.lrc_lang.specs.declared.fault.FaultKind.{FaultKind as FaultKindSeen};
ghost use Rattle.lrc_lang.specs.declared.kind.Kind.{Kind as KindSeen};
ghost use Rattle.lrc_lang.specs.Faults.{AreFaultless, HasFirstFault};
ghost use Rattle.lrc_lang.specs.FirstFault.{IsFirstFaultOf, placed};
ghost use Rattle.lrc_lang.specs.Parser.Located.{located_of};
ghost use Rattle.lrc_lang.specs.Parser.Seen.{symbol_seen};
ghost use Rattle.lrc_lang.specs.Parser.SeenLimits.{names_seen};
ghost use Rattle.lrc_lang.specs.Parser.SeenState.{state_seen};
ghost use Rattle.lrc_lang.specs.Parser.State.{start};
ghost use Rattle.lrc_lang.specs.Parser.Stops.{IsRefused, IsTaken, Stops, kinds_taken, symbol_of_kind, takes_kind};
ghost use Rattle.lrc_lang.specs.Parser.View.{lexeme_of, token_of};
ghost use Rattle.lrc_lang.specs.Positions.{HasLocated, Located as Spot};
ghost use Rattle.lrc_lang.specs.Token.{Token as TokenSeen, token};

use crate::fault::FaultKind;
use crate::kind::{Kind, all_kinds};
use crate::limits::Limits;
use crate::parser::take;
use crate::positions::Located;
use crate::state::ParserState;
use crate::symbol::{Symbol, symbol_of_sign};
use crate::token::{Lexeme, Token};
use std::alloc::{AllocError, Global};

/// The first fault of a text, with the kinds of tokens that may come there instead.
#[derive(Drop)]
pub struct FirstFault {
    /// The index of the faulty item among the items of the text, from 0.
    pub index: usize,
    pub kind: FaultKind,
    /// The kinds of tokens that may come there, sizes aside, if a token is unexpected or a byte begins no token. For
    /// another fault nothing is promised about them.
    pub may_stand: Vec<Kind>,
}

// Why the parser goes no further, with what may stand there.
#[derive(Drop)]
struct Stop {
    kind: FaultKind,
    may_stand: Vec<Kind>,
}

/// Returns the first fault of the items of a text, or none if they are the tokens of a program. It fails only if memory
/// runs out.
pub fn first_fault(alloc: Global, all: &[Located<'_>]) -> Result<Option<FirstFault>, AllocError>
    ensures { IfOk result (λ found. MatchOption found
        ((tokens : List TokenSeen) × AreFaultless [] (map placed (map located_of all.now)) tokens)
        (λ fault. IsFirstFaultOf (map located_of all.now) fault.index fault.kind
        fault.may_stand.items)) }
{
    let mut state = ParserState::start(alloc);
    let mut limits = Limits::empty(alloc);
    first_fault_behind(&mut state, &mut limits, alloc, all)
}

/// The first fault of the items of a text of at most 65,536 bytes is the first fault of the text.
pub fn first_faults_are_those_of_texts()
    ensures { (text : List ℕ) (all : List Spot) (index : ℕ) (kind : FaultKindSeen)
        (may_stand : List KindSeen) → length text ≤ 65536
        → HasLocated text all → (first : IsFirstFaultOf all index kind may_stand)
        → HasFirstFault text first.has.found.line kind }
{}

// The first fault of what stands in a text, from the state of a text of which nothing has come.
fn first_fault_behind<'t>(
    state: &mut ParserState,
    limits: &mut Limits<'t>,
    alloc: Global,
    all: &[Located<'t>],
) -> Result<Option<FirstFault>, AllocError>
    requires start { state_seen state.old ≡ start }
    requires names { names_seen limits.old ≡ [] }
    requires nested { limits.old.nested ≡ 0 }
    requires operators { limits.old.operators ≡ 0 }
    ensures { IfOk result (λ found. MatchOption found
        ((tokens : List TokenSeen) × AreFaultless [] (map placed (map located_of all.now)) tokens)
        (λ fault. IsFirstFaultOf (map located_of all.now) fault.index fault.kind
        fault.may_stand.items)) }
{
    for (index, found) in all.iter().enumerate() {
        if let Some(stop) = stop_at(alloc, state, limits, found.lexeme)? {
            return Ok(Some(at_place(index, stop)));
        }
    }
    Ok(None)
}

fn at_place(index: usize, stop: Stop) -> FirstFault
    ensures index { result.index ≡ index }
    ensures kind { result.kind ≡ stop.kind }
    ensures may_stand { result.may_stand ≡ stop.may_stand }
{
    let Stop { kind, may_stand } = stop;
    FirstFault {
        index,
        kind,
        may_stand,
    }
}

// Takes what stands next, or says why not.
fn stop_at<'t>(
    alloc: Global,
    state: &mut ParserState,
    limits: &mut Limits<'t>,
    lexeme: Lexeme<'t>,
) -> Result<Option<Stop>, AllocError>
    ensures { IfOk result (λ stop. Stops stop state.old limits.old
        (lexeme_of lexeme.entry) state.new limits.new) }
{
    if let Some(kind) = refusal(state, limits, lexeme) {
        let may_stand = kinds_taken(alloc, state)?;
        return Ok(Some(Stop { kind, may_stand }));
    }
    match take(state, limits, lexeme) {
        Ok(()) => Ok(None),
        Err(FaultKind::NoMemory) => Err(AllocError),
        Err(kind) => Ok(Some(Stop {
            kind,
            may_stand: Vec::new(alloc),
        })),
    }
}

// Why the parser does not take what stands next, whatever its size.
fn refusal<'t>(state: &ParserState, limits: &Limits<'t>, lexeme: Lexeme<'t>) -> Option<FaultKind>
    ensures { MatchOption result (IsTaken (state_seen state.now) (names_seen limits.now)
        (lexeme_of lexeme.entry))
        (λ kind. IsRefused kind (state_seen state.now) (names_seen limits.now)
        (lexeme_of lexeme.entry)) }
{
    match lexeme {
        Lexeme::Token(token) => refusal_of(state, limits, token),
        Lexeme::BadByte => Some(FaultKind::BadByte),
        Lexeme::BadNumber => None,
    }
}

fn refusal_of<'t>(state: &ParserState, limits: &Limits<'t>, found: Token<'t>) -> Option<FaultKind>
    ensures { MatchOption result (IsTaken (state_seen state.now) (names_seen limits.now)
        (token (token_of found.entry)))
        (λ kind. IsRefused kind (state_seen state.now) (names_seen limits.now)
        (token (token_of found.entry))) }
{
    if state.takes(limits.symbol(found)) {
        None
    } else {
        Some(FaultKind::Unexpected)
    }
}

// The kinds of tokens that the parser takes.
fn kinds_taken(alloc: Global, state: &ParserState) -> Result<Vec<Kind>, AllocError>
    ensures { IfOk result (λ kinds. kinds.items ≡ kinds_taken (state_seen state.now)) }
{
    all_kinds()
        .iter()
        .copied()
        .filter(|kind| takes_kind(state, *kind))
        .collect(alloc)
}

fn takes_kind(state: &ParserState, kind: Kind) -> bool
    ensures { result ≡ takes_kind (state_seen state.now) kind }
{
    state.takes(symbol_of_kind(kind))
}

// A symbol of this kind.
fn symbol_of_kind(kind: Kind) -> Symbol
    ensures { symbol_seen result ≡ symbol_of_kind kind }
{
    match kind {
        Kind::Name => Symbol::Name(0),
        Kind::Number => Symbol::Number(1),
        Kind::Keyword(keyword) => Symbol::Keyword(keyword),
        Kind::Sign(sign) => symbol_of_sign(sign),
        Kind::End => Symbol::End,
    }
}
