// Judging all claims of a report.
ghost use Rattle.std.specs.Prelude.{◌≡◌, ℕ, ◌<◌, IfOk, OnOk, Some, length, slice_get, vec_len};
ghost use Rattle.lrc_races_text.specs.declared.asked.Sought.{Sought as AnySought};
ghost use Rattle.lrc_races_text.specs.Naming.{Naming};
ghost use Rattle.lrc_races_witness.specs.Relations.{AreByLine};
ghost use Rattle.lrc_races_score.specs.declared.report.LinedClaim.{LinedClaim as AnyClaim};
ghost use Rattle.lrc_races_score.specs.Claims.{statement_of};
ghost use Rattle.lrc_races_claims.specs.Judge.{AreEmpty, AreSlots, AreVerdicts, IsJudge, IsSomeJudge, StaysJudge};
ghost use Rattle.lrc_races_claims.specs.Truth.{IsJudged};

use crate::judge::Judge;
use crate::turns::{Turn, turns_of};
use crate::verdict::Verdict;
use lrc_races_score::report::LinedClaim;
use lrc_races_trace::event::Event;
use std::alloc::{AllocError, Global};

// So many slots, in which nothing is kept.
fn empty_slots(alloc: Global, count: usize) -> Result<Vec<Option<Verdict>>, AllocError>
    ensures empty { IfOk result (λ slots. AreEmpty slots.items) }
    ensures long { IfOk result (λ slots. vec_len slots ≡ count) }
{
    let mut slots = Vec::new(alloc);
    for _place in 0..count {
        slots.push(None)?;
    }
    Ok(slots)
}

// Judges the claim at a place of a report, if there is one, and keeps what is said of it.
fn judge_turn(
    judge: &mut Judge,
    events: &[Event],
    claims: &[LinedClaim<'_>],
    place: usize,
    slots: &mut Vec<Option<Verdict>>,
) -> Result<(), AllocError>
    requires by_line { AreByLine events.now }
    requires judge { IsSomeJudge events.now judge.old }
    requires long { vec_len slots.old ≡ length claims.now }
    ensures slots { OnOk result ((sought : AnySought) (naming : Naming) (last : ℕ)
        → IsJudge sought naming events.now last judge.old
        → AreSlots sought naming events.now last claims.now slots.old.items
        → AreSlots sought naming events.now last claims.now slots.new.items) }
    ensures stays { OnOk result (StaysJudge events.now judge.old judge.new) }
    ensures long { OnOk result (vec_len slots.new ≡ vec_len slots.old) }
{
    if place >= claims.len() {
        return Ok(());
    }
    let verdict = judge.claim(events, claims[place].claim)?;
    slots[place] = Some(verdict);
    Ok(())
}

// Judges the claims of a report in these turns.
fn judge_turns(
    judge: &mut Judge,
    events: &[Event],
    claims: &[LinedClaim<'_>],
    turns: &[Turn],
    slots: &mut Vec<Option<Verdict>>,
) -> Result<(), AllocError>
    requires by_line { AreByLine events.now }
    requires judge { IsSomeJudge events.now judge.old }
    requires long { vec_len slots.old ≡ length claims.now }
    ensures slots { OnOk result ((sought : AnySought) (naming : Naming) (last : ℕ)
        → IsJudge sought naming events.now last judge.old
        → AreSlots sought naming events.now last claims.now slots.old.items
        → AreSlots sought naming events.now last claims.now slots.new.items) }
    ensures stays { OnOk result (StaysJudge events.now judge.old judge.new) }
    ensures long { OnOk result (vec_len slots.new ≡ vec_len slots.old) }
{
    for turn in turns {
        judge_turn(judge, events, claims, turn.place, slots)?;
    }
    Ok(())
}

// What is said of the claim at a place, as it was kept, or else judged now.
fn verdict_at(
    judge: &mut Judge,
    events: &[Event],
    claims: &[LinedClaim<'_>],
    slots: &[Option<Verdict>],
    place: usize,
) -> Result<Verdict, AllocError>
    requires by_line { AreByLine events.now }
    requires judge { IsSomeJudge events.now judge.old }
    requires within { place < length claims.now }
    requires long { length slots.now ≡ length claims.now }
    ensures judged { IfOk result (λ verdict. (sought : AnySought) (naming : Naming) (last : ℕ)
        (claim : AnyClaim) → slice_get claims.now place ≡ Some claim
        → IsJudge sought naming events.now last judge.old
        → AreSlots sought naming events.now last claims.now slots.now
        → IsJudged sought naming events.now last (statement_of claim.claim) verdict) }
    ensures stays { OnOk result (StaysJudge events.now judge.old judge.new) }
{
    match slots[place] {
        Some(verdict) => Ok(verdict),
        None => judge.claim(events, claims[place].claim),
    }
}

// What is said of each claim, as far as it was kept, and the others judged now.
fn verdicts_of(
    alloc: Global,
    judge: &mut Judge,
    events: &[Event],
    claims: &[LinedClaim<'_>],
    slots: &[Option<Verdict>],
) -> Result<Vec<Verdict>, AllocError>
    requires by_line { AreByLine events.now }
    requires judge { IsSomeJudge events.now judge.old }
    requires long { length slots.now ≡ length claims.now }
    ensures judged { IfOk result (λ verdicts. (sought : AnySought) (naming : Naming) (last : ℕ)
        → IsJudge sought naming events.now last judge.old
        → AreSlots sought naming events.now last claims.now slots.now
        → AreVerdicts sought naming events.now last claims.now verdicts.items) }
    ensures stays { OnOk result (StaysJudge events.now judge.old judge.new) }
{
    let mut verdicts = Vec::new(alloc);
    for place in 0..claims.len() {
        verdicts.push(verdict_at(judge, events, claims, slots, place)?)?;
    }
    Ok(verdicts)
}

/// Returns what is said of each claim of a report, in order. It fails if memory runs out, and then the judge is of no
/// use.
pub fn judge_all(
    alloc: Global,
    judge: &mut Judge,
    events: &[Event],
    claims: &[LinedClaim<'_>],
) -> Result<Vec<Verdict>, AllocError>
    requires by_line { AreByLine events.now }
    requires judge { IsSomeJudge events.now judge.old }
    ensures judged { IfOk result (λ verdicts. (sought : AnySought) (naming : Naming) (last : ℕ)
        → IsJudge sought naming events.now last judge.old
        → AreVerdicts sought naming events.now last claims.now verdicts.items) }
    ensures stays { OnOk result (StaysJudge events.now judge.old judge.new) }
{
    let mut slots = empty_slots(alloc, claims.len())?;
    let turns = turns_of(alloc, claims)?;
    judge_turns(judge, events, claims, turns.as_slice(), &mut slots)?;
    verdicts_of(alloc, judge, events, claims, slots.as_slice())
}
