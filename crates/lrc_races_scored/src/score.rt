// A report scored: all that is printed of it, and the exit status.
ghost use Rattle.std.specs.Prelude.{◌≡◌, ◌++◌, ℕ, IfOk, OnOk, length};
ghost use Rattle.lrc_races_lines.specs.Table.{names_of};
ghost use Rattle.lrc_races_text.specs.Naming.{Naming};
ghost use Rattle.lrc_races_text.specs.Tables.{naming_of};
ghost use Rattle.lrc_races_witness.specs.Relations.{AreByLine};
ghost use Rattle.lrc_races_claims.specs.Judge.{IsJudge, IsSomeJudge};
ghost use Rattle.lrc_races_claims.specs.Known.{known_names};
ghost use Rattle.lrc_races_missed.specs.Missed.{AreNumbered};
ghost use Rattle.lrc_races_scored.specs.Scored.{HasScored, is_complete, some_false, status_of};
ghost use Rattle.lrc_races_scored.specs.Spelled.{missed_lines, score_line, score_lines};

use crate::missed::{Missed, missed_of};
use crate::sort::Sort;
use crate::spelling::{
    push_events, push_firsts, push_judged, push_locations, push_pairs, push_tally, push_variables,
};
use crate::tally::{is_right, is_scored, tally_of};
use crate::traced::Traced;
use lrc_races_claims::judge::Judge;
use lrc_races_claims::judge_all::judge_all;
use lrc_races_claims::known::KnownNames;
use lrc_races_claims::verdict::Verdict;
use lrc_races_score::report::LinedClaim;
use lrc_races_text::asked::Sought;
use lrc_races_text::naming::Names;
use lrc_races_trace::event::Event;
use std::alloc::{AllocError, Global};

// Adds the lines of all that is missed.
fn push_missed(
    text: &mut Vec<u8>,
    names: &Names,
    variables: &KnownNames,
    missed: &Missed,
) -> Result<(), AllocError>
    ensures { OnOk result ((naming : Naming) → naming.locations ≡ names_of names.now.locations
        → naming.variables ≡ known_names variables.now
        → text.new.items ≡ text.old.items ++ missed_lines naming missed.now) }
{
    push_events(text, missed.events.as_slice())?;
    push_pairs(text, missed.pairs.as_slice())?;
    push_locations(text, names, missed.locations.as_slice())?;
    push_variables(text, variables, missed.variables.as_slice())?;
    push_firsts(text, variables, missed.firsts.as_slice())
}

// Adds the line of a sort of claims, if it is scored.
fn push_score_line(
    text: &mut Vec<u8>,
    claims: &[LinedClaim<'_>],
    verdicts: &[Verdict],
    sort: Sort,
    missed: usize,
) -> Result<(), AllocError>
    requires { length verdicts.now ≡ length claims.now }
    ensures { OnOk result (text.new.items
        ≡ text.old.items ++ score_line claims.now verdicts.now sort missed) }
{
    if !is_scored(sort, claims) {
        return Ok(());
    }
    push_tally(text, sort, tally_of(sort, claims, verdicts), missed as u64)
}

// Adds the lines of all sorts.
fn push_score_lines(
    text: &mut Vec<u8>,
    claims: &[LinedClaim<'_>],
    verdicts: &[Verdict],
    missed: &Missed,
) -> Result<(), AllocError>
    requires { length verdicts.now ≡ length claims.now }
    ensures { OnOk result (text.new.items
        ≡ text.old.items ++ score_lines claims.now verdicts.now missed.now) }
{
    push_score_line(text, claims, verdicts, Sort::Events, missed.events.len())?;
    push_score_line(text, claims, verdicts, Sort::Pairs, missed.pairs.len())?;
    push_score_line(
        text,
        claims,
        verdicts,
        Sort::Locations,
        missed.locations.len(),
    )?;
    push_score_line(
        text,
        claims,
        verdicts,
        Sort::Variables,
        missed.variables.len(),
    )?;
    push_score_line(text, claims, verdicts, Sort::Firsts, missed.firsts.len())
}

// Whether something that was claimed is false.
fn some_false(verdicts: &[Verdict]) -> bool
    ensures { result ≡ some_false verdicts.now }
{
    verdicts.iter().any(|verdict| !is_right(*verdict))
}

// Whether nothing is missed.
fn is_complete(missed: &Missed) -> bool
    ensures { result ≡ is_complete missed.now }
{
    missed.events.is_empty()
        && missed.pairs.is_empty()
        && missed.locations.is_empty()
        && missed.variables.is_empty()
        && missed.firsts.is_empty()
}

// The exit status: 3 if something is false, else 4 if something is missed, else 0.
fn status_of(verdicts: &[Verdict], missed: &Missed) -> u8
    ensures { result ≡ status_of verdicts.now missed.now }
{
    if some_false(verdicts) {
        return 3;
    }
    if is_complete(missed) { 0 } else { 4 }
}

// Adds what is printed behind the lines of the claims, and returns the exit status.
fn push_rest(
    text: &mut Vec<u8>,
    judge: &Judge,
    claims: &[LinedClaim<'_>],
    verdicts: &[Verdict],
    missed: &Missed,
) -> Result<u8, AllocError>
    requires { length verdicts.now ≡ length claims.now }
    ensures { IfOk result (λ status. (naming : Naming)
        → naming.locations ≡ names_of judge.now.names.locations
        → naming.variables ≡ known_names judge.now.variables
        → (text.new.items ≡ text.old.items
        ++ (missed_lines naming missed.now ++ score_lines claims.now verdicts.now missed.now))
        × (status ≡ status_of verdicts.now missed.now)) }
{
    push_missed(text, &judge.names, &judge.variables, missed)?;
    push_score_lines(text, claims, verdicts, missed)?;
    Ok(status_of(verdicts, missed))
}

// Adds what is printed of the claims by their judge, and returns the exit status.
fn push_by(
    alloc: Global,
    text: &mut Vec<u8>,
    sought: Sought,
    judge: &mut Judge,
    events: &[Event],
    claims: &[LinedClaim<'_>],
) -> Result<u8, AllocError>
    requires by_line { AreByLine events.now }
    requires judge { IsSomeJudge events.now judge.old }
    ensures { IfOk result (λ status. (naming : Naming) (last : ℕ) → AreNumbered naming events.now
        → IsJudge sought naming events.now last judge.old
        → HasScored sought naming events.now last claims.now text.old.items status text.new.items) }
{
    let verdicts = judge_all(alloc, judge, events, claims)?;
    push_judged(
        text,
        sought,
        &judge.names.threads,
        claims,
        verdicts.as_slice(),
    )?;
    let missed = missed_of(alloc, sought, judge, events, claims)?;
    push_rest(text, judge, claims, verdicts.as_slice(), &missed)
}

/// Adds what is printed of the claims of a report about a trace of so many lines, and returns the exit status: 3 if
/// something that was claimed is false, else 4 if something was missed, else 0. It fails if memory runs out.
pub fn push_score(
    alloc: Global,
    text: &mut Vec<u8>,
    sought: Sought,
    traced: Traced,
    last: u64,
    claims: &[LinedClaim<'_>],
) -> Result<u8, AllocError>
    requires { AreByLine traced.events.items }
    ensures { IfOk result (λ status. AreNumbered (naming_of traced.names) traced.events.items
        → HasScored sought (naming_of traced.names) traced.events.items last claims.now
        text.old.items status text.new.items) }
{
    let Traced { names, events } = traced;
    let mut judge = Judge::new(alloc, sought, names, last);
    push_by(alloc, text, sought, &mut judge, events.as_slice(), claims)
}
