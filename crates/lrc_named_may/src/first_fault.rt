// The first fault of a text as such, where it is, and what may stand there.

ghost use Rattle.std.specs.Prelude.{◌≡◌, ◌≢◌, ◌≤◌, ◌∷◌, ◌++◌, ℕ, [], List, filter, length, map, IfOk, MatchOption, OnOk};
ghost use Rattle.lrc_lang.specs.declared.fault.FaultKind.{FaultKind as FaultKindSeen};
ghost use Rattle.lrc_lang.specs.declared.fault.FaultKind.TheVariants.{NoMemory};
ghost use Rattle.lrc_named_parse.specs.Counts.{apart};
ghost use Rattle.lrc_named_parse.specs.Faults.{AreFaultless, HasFirstFault};
ghost use Rattle.lrc_named_parse.specs.SeenLimits.{counted_seen};
ghost use Rattle.lrc_named_parse.specs.SeenState.{state_seen};
ghost use Rattle.lrc_named_parse.specs.State.{start};
ghost use Rattle.lrc_named_tokens.specs.Lexemes.{HasLexemes};
ghost use Rattle.lrc_named_tokens.specs.Token.{Located as LocatedSeen, Place as PlaceSeen, Token as TokenSeen, token};
ghost use Rattle.lrc_named_tokens.specs.View.{lexeme_of, located_of, token_of};
ghost use Rattle.lrc_named_may.specs.declared.kind.Kind.{Kind as KindSeen};
ghost use Rattle.lrc_named_may.specs.FirstFault.{IsFirstFaultOf};
ghost use Rattle.lrc_named_may.specs.Stops.{IsRefused, IsTaken, Stops, kinds_taken, takes_kind};

use crate::kind::{Kind, all_kinds, token_of_kind};
use lrc_lang::fault::FaultKind;
use lrc_named_parse::limits::Limits;
use lrc_named_parse::parser::take;
use lrc_named_parse::state::State;
use lrc_named_tokens::token::{Lexeme, Located, Token};
use std::alloc::{AllocError, Global};

/// The first fault of a text as such, with the kinds of tokens that may come there instead.
#[derive(Drop)]
pub struct FirstFault {
    /// The index of the faulty lexeme among those of the text, from 0.
    pub index: usize,
    pub kind: FaultKind,
    /// The kinds of tokens that may come there, limits aside, if a token is unexpected or a byte begins no token. For
    /// another fault nothing is promised about them.
    pub may_stand: Vec<Kind>,
}

// Why the parser goes no further, with what may stand there.
#[derive(Drop)]
struct Stop {
    kind: FaultKind,
    may_stand: Vec<Kind>,
}

/// Returns the first fault of the lexemes of a text, or none if they are tokens without a fault. It fails only if memory
/// runs out.
pub fn first_fault(alloc: Global, all: &[Located<'_>]) -> Result<Option<FirstFault>, AllocError>
    requires { length all.now ≤ 65537 }
    ensures { IfOk result (λ found. MatchOption found
        ((tokens : List TokenSeen) × AreFaultless [] (map located_of all.now) tokens)
        (λ fault. IsFirstFaultOf (map located_of all.now) fault.index fault.kind
        fault.may_stand.items)) }
{
    let mut state = State::start(alloc);
    let mut limits = Limits::empty();
    first_fault_behind(&mut state, &mut limits, alloc, all)
}

/// The first fault of the lexemes of a text of at most 65,536 bytes is the first fault of the text. Where they have none,
/// the text has none.
pub fn first_faults_are_those_of_texts()
    ensures fault { (text : List ℕ) (all : List LocatedSeen) (index : ℕ) (kind : FaultKindSeen)
        (may_stand : List KindSeen) → length text ≤ 65536 → HasLexemes text all
        → (first : IsFirstFaultOf all index kind may_stand)
        → HasFirstFault text first.has.found.place kind }
    ensures none { (text : List ℕ) (all : List LocatedSeen) (tokens : List TokenSeen)
        → length text ≤ 65536 → HasLexemes text all → AreFaultless [] all tokens
        → (place : PlaceSeen) (kind : FaultKindSeen) → HasFirstFault text place kind → ⊥ }
{}

// The first fault of what stands in a text, from the state of a text of which nothing has come.
fn first_fault_behind<'t>(
    state: &mut State<'t>,
    limits: &mut Limits,
    alloc: Global,
    all: &[Located<'t>],
) -> Result<Option<FirstFault>, AllocError>
    requires few { length all.now ≤ 65537 }
    requires start { state_seen state.old ≡ start }
    requires nested { limits.old.nested ≡ 0 }
    requires counted { counted_seen limits.old.counted ≡ apart }
    ensures { IfOk result (λ found. MatchOption found
        ((tokens : List TokenSeen) × AreFaultless [] (map located_of all.now) tokens)
        (λ fault. IsFirstFaultOf (map located_of all.now) fault.index fault.kind
        fault.may_stand.items)) }
{
    for (index, found) in all.iter().enumerate() {
        if let Some(stop) = stop_at(alloc, state, limits, index as u32, found.lexeme)? {
            return Ok(Some(at_place(index, stop)));
        }
    }
    Ok(None)
}

fn at_place(index: usize, stop: Stop) -> FirstFault
    ensures index { result.index ≡ index }
    ensures kind { result.kind ≡ stop.kind }
    ensures may_stand { result.may_stand ≡ stop.may_stand }
{
    let Stop { kind, may_stand } = stop;
    FirstFault {
        index,
        kind,
        may_stand,
    }
}

// Takes what stands next, with so many lexemes before it, or says why not.
fn stop_at<'t>(
    alloc: Global,
    state: &mut State<'t>,
    limits: &mut Limits,
    at: u32,
    lexeme: Lexeme<'t>,
) -> Result<Option<Stop>, AllocError>
    ensures { IfOk result (λ stop. Stops stop state.old limits.old at
        (lexeme_of lexeme.entry) state.new limits.new) }
{
    if let Some(kind) = refusal(state, lexeme) {
        let may_stand = kinds_taken(alloc, state)?;
        return Ok(Some(Stop { kind, may_stand }));
    }
    match take(state, limits, at, lexeme) {
        Ok(()) => Ok(None),
        Err(kind) => Ok(Some(stop_for(alloc, kind)?)),
    }
}

// Why the parser goes no further, unless memory ran out, where it tells nothing of what may stand there.
fn stop_for(alloc: Global, kind: FaultKind) -> Result<Stop, AllocError>
    ensures kind { IfOk result (λ stop. stop.kind ≡ kind) }
    ensures other { IfOk result (λ _. kind ≢ NoMemory) }
{
    match kind {
        FaultKind::NoMemory => Err(AllocError),
        _ => Ok(Stop {
            kind,
            may_stand: Vec::new(alloc),
        }),
    }
}

// Why the parser does not take what stands next, whatever the limits.
fn refusal<'t>(state: &State<'t>, lexeme: Lexeme<'t>) -> Option<FaultKind>
    ensures { MatchOption result
        ((at : ℕ) → IsTaken at (state_seen state.now) (lexeme_of lexeme.entry))
        (λ kind. (at : ℕ) → IsRefused kind at (state_seen state.now) (lexeme_of lexeme.entry)) }
{
    match lexeme {
        Lexeme::Token(token) => refusal_of(state, token),
        Lexeme::BadByte => Some(FaultKind::BadByte),
        Lexeme::BadNumber => None,
    }
}

fn refusal_of<'t>(state: &State<'t>, found: Token<'t>) -> Option<FaultKind>
    ensures { MatchOption result
        ((at : ℕ) → IsTaken at (state_seen state.now) (token (token_of found.entry)))
        (λ kind. (at : ℕ) → IsRefused kind at (state_seen state.now) (token (token_of found.entry))) }
{
    if state.takes(found) {
        None
    } else {
        Some(FaultKind::Unexpected)
    }
}

// The kinds of tokens that the parser takes.
fn kinds_taken(alloc: Global, state: &State<'_>) -> Result<Vec<Kind>, AllocError>
    ensures { IfOk result (λ kinds. (at : ℕ) → kinds.items
        ≡ kinds_taken at (state_seen state.now)) }
{
    let mut kinds = Vec::new(alloc);
    for kind in all_kinds() {
        push_if_taken(&mut kinds, state, *kind)?;
    }
    Ok(kinds)
}

fn push_if_taken(kinds: &mut Vec<Kind>, state: &State<'_>, kind: Kind) -> Result<(), AllocError>
    ensures { OnOk result ((at : ℕ) → kinds.new.items
        ≡ kinds.old.items ++ filter (takes_kind at (state_seen state.now)) (kind ∷ [])) }
{
    if takes_kind(state, kind) {
        kinds.push(kind)?;
    }
    Ok(())
}

fn takes_kind(state: &State<'_>, kind: Kind) -> bool
    ensures { (at : ℕ) → result ≡ takes_kind at (state_seen state.now) kind }
{
    state.takes(token_of_kind(kind))
}
