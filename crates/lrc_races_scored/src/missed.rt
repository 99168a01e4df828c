// What a report missed, of each sort of claims that is scored.
ghost use Rattle.std.specs.Prelude.{◌≡◌, ℕ, IfOk, List, OnOk, []};
ghost use Rattle.lrc_races_trace.specs.declared.event.Event.{Event as AnyEvent};
ghost use Rattle.lrc_races_lines.specs.Table.{names_of};
ghost use Rattle.lrc_races_text.specs.declared.asked.Sought.{Sought as AnySought};
ghost use Rattle.lrc_races_text.specs.Naming.{Naming};
ghost use Rattle.lrc_races_witness.specs.Relations.{AreByLine};
ghost use Rattle.lrc_races_claims.specs.Judge.{IsJudge, IsSomeJudge, StaysJudge};
ghost use Rattle.lrc_races_claims.specs.Known.{known_names};
ghost use Rattle.lrc_races_claims.specs.Placed.{ArePlaces, HasSamePlaces};
ghost use Rattle.lrc_races_missed.specs.Keys.{AreKeys};
ghost use Rattle.lrc_races_missed.specs.Missed.{AreAllRacing, AreMissedLocations, AreNumbered};
ghost use Rattle.lrc_races_scored.specs.Missing.{AreMissed, ScoresEvents, ScoresFirsts, ScoresLocations, ScoresPairs, ScoresVariables};

use crate::sort::Sort;
use crate::tally::is_scored;
use indexmap::IndexSet;
use lrc_races_claims::judge::Judge;
use lrc_races_claims::known::KnownNames;
use lrc_races_claims::places::Places;
use lrc_races_lines::table::Table;
use lrc_races_missed::events::missed_events;
use lrc_races_missed::key::Key;
use lrc_races_missed::keys::keys_of;
use lrc_races_missed::locations::missed_locations;
use lrc_races_missed::pairs::{TwoLines, missed_pairs};
use lrc_races_missed::variables::{Racing, missed_firsts, missed_variables, racing_of};
use lrc_races_score::report::LinedClaim;
use lrc_races_text::asked::Sought;
use lrc_races_text::naming::Names;
use lrc_races_trace::event::{Event, Pair};
use std::alloc::{AllocError, Global};

/// What a report missed. Of a sort that is not scored it is nothing.
#[derive(Drop)]
pub struct Missed {
    /// The lines of accesses that race with earlier ones.
    pub events: Vec<u64>,
    /// The lines of pairs that are reported.
    pub pairs: Vec<TwoLines>,
    /// Pairs that show two places that race.
    pub locations: Vec<Pair>,
    /// Variables that race.
    pub variables: Vec<Racing>,
    /// Variables that race, with their first accesses that do.
    pub firsts: Vec<Racing>,
}

// The keys of the claims of a report but those of places.
fn named_keys(
    alloc: Global,
    judge: &mut Judge,
    claims: &[LinedClaim<'_>],
) -> Result<IndexSet<Key>, AllocError>
    ensures keys { IfOk result (λ keys. AreKeys (known_names judge.old.variables) [] claims.now
        keys.keys) }
    ensures stays { OnOk result ((events : List AnyEvent) → StaysJudge events judge.old judge.new) }
{
    let mut none = KnownNames::new(Table::new(alloc));
    keys_of(alloc, claims, &mut judge.variables, &mut none)
}

// The racing events that were missed.
fn events_part(
    alloc: Global,
    judge: &mut Judge,
    events: &[Event],
    claims: &[LinedClaim<'_>],
    keys: &IndexSet<Key>,
) -> Result<Vec<u64>, AllocError>
    requires { IsSomeJudge events.now judge.old }
    ensures missed { IfOk result (λ lines. (sought : AnySought) (naming : Naming) (last : ℕ)
        (variables places : List (List ℕ)) → AreByLine events.now
        → IsJudge sought naming events.now last judge.old
        → AreKeys variables places claims.now keys.now.keys
        → ScoresEvents sought events.now claims.now lines.items) }
    ensures stays { OnOk result (StaysJudge events.now judge.old judge.new) }
{
    if !is_scored(Sort::Events, claims) {
        return Ok(Vec::new(alloc));
    }
    judge.learn_facts(events)?;
    match &judge.facts {
        Some(facts) => missed_events(alloc, events, facts.marks.as_slice(), keys),
        None => unreachable!(),
    }
}

// The pairs that are reported and were missed.
fn pairs_part(
    alloc: Global,
    sought: Sought,
    events: &[Event],
    claims: &[LinedClaim<'_>],
    keys: &IndexSet<Key>,
) -> Result<Vec<TwoLines>, AllocError>
    ensures { IfOk result (λ lines. (variables places : List (List ℕ))
        → AreKeys variables places claims.now keys.now.keys
        → ScoresPairs sought events.now claims.now lines.items) }
{
    if !is_scored(Sort::Pairs, claims) {
        return Ok(Vec::new(alloc));
    }
    missed_pairs(alloc, sought, events, keys)
}

// The pairs of places that race and were missed, by the places of the trace.
fn located(
    alloc: Global,
    claims: &[LinedClaim<'_>],
    names: &Names,
    variables: &mut KnownNames,
    places: &mut Places,
) -> Result<Vec<Pair>, AllocError>
    ensures missed { IfOk result (λ missed. (sought : AnySought) (naming : Naming)
        (events : List AnyEvent) → naming.locations ≡ names_of names.now.locations
        → ArePlaces sought naming events places.old
        → AreMissedLocations sought naming events claims.now missed.items) }
    ensures variables { OnOk result (known_names variables.new ≡ known_names variables.old) }
    ensures places { OnOk result (HasSamePlaces places.old places.new) }
{
    let keys = keys_of(alloc, claims, variables, &mut places.names)?;
    missed_locations(
        alloc,
        places.shown.as_slice(),
        &mut places.names,
        names,
        &keys,
    )
}

// The pairs of places that race and were missed.
fn locations_part(
    alloc: Global,
    judge: &mut Judge,
    events: &[Event],
    claims: &[LinedClaim<'_>],
) -> Result<Vec<Pair>, AllocError>
    ensures missed { IfOk result (λ missed. (sought : AnySought) (naming : Naming) (last : ℕ)
        → IsJudge sought naming events.now last judge.old
        → ScoresLocations sought naming events.now claims.now missed.items) }
    ensures stays { OnOk result (StaysJudge events.now judge.old judge.new) }
{
    if !is_scored(Sort::Locations, claims) {
        return Ok(Vec::new(alloc));
    }
    judge.learn_places(events)?;
    match &mut judge.places {
        Some(places) => located(alloc, claims, &judge.names, &mut judge.variables, places),
        None => unreachable!(),
    }
}

// All variables that race.
fn racing_all(alloc: Global, judge: &mut Judge, events: &[Event]) -> Result<Vec<Racing>, AllocError>
    ensures racing { IfOk result (λ all. (sought : AnySought) (naming : Naming) (last : ℕ)
        → AreByLine events.now → IsJudge sought naming events.now last judge.old
        → AreAllRacing sought events.now all.items) }
    ensures stays { OnOk result (StaysJudge events.now judge.old judge.new) }
{
    judge.learn_facts(events)?;
    match &judge.facts {
        Some(facts) => racing_of(alloc, events, facts),
        None => unreachable!(),
    }
}

// The variables that race and were missed.
fn variables_part(
    alloc: Global,
    judge: &mut Judge,
    events: &[Event],
    claims: &[LinedClaim<'_>],
    keys: &IndexSet<Key>,
) -> Result<Vec<Racing>, AllocError>
    ensures missed { IfOk result (λ missed. (sought : AnySought) (naming : Naming) (last : ℕ)
        (places : List (List ℕ)) → AreByLine events.now → AreNumbered naming events.now
        → IsJudge sought naming events.now last judge.old
        → AreKeys naming.variables places claims.now keys.now.keys
        → ScoresVariables sought naming events.now claims.now missed.items) }
    ensures stays { OnOk result (StaysJudge events.now judge.old judge.new) }
{
    if !is_scored(Sort::Variables, claims) {
        return Ok(Vec::new(alloc));
    }
    let all = racing_all(alloc, judge, events)?;
    missed_variables(alloc, all.as_slice(), keys)
}

// The variables that race whose first access that does was missed.
fn firsts_part(
    alloc: Global,
    judge: &mut Judge,
    events: &[Event],
    claims: &[LinedClaim<'_>],
    keys: &IndexSet<Key>,
) -> Result<Vec<Racing>, AllocError>
    ensures missed { IfOk result (λ missed. (sought : AnySought) (naming : Naming) (last : ℕ)
        (places : List (List ℕ)) → AreByLine events.now → AreNumbered naming events.now
        → IsJudge sought naming events.now last judge.old
        → AreKeys naming.variables places claims.now keys.now.keys
        → ScoresFirsts sought naming events.now claims.now missed.items) }
    ensures stays { OnOk result (StaysJudge events.now judge.old judge.new) }
{
    if !is_scored(Sort::Firsts, claims) {
        return Ok(Vec::new(alloc));
    }
    let all = racing_all(alloc, judge, events)?;
    missed_firsts(alloc, all.as_slice(), keys)
}

// Sets what was missed, by the keys of the claims.
fn fill(
    alloc: Global,
    sought: Sought,
    judge: &mut Judge,
    events: &[Event],
    claims: &[LinedClaim<'_>],
    keys: &IndexSet<Key>,
    missed: &mut Missed,
) -> Result<(), AllocError>
    requires by_line { AreByLine events.now }
    requires judge { IsSomeJudge events.now judge.old }
    ensures missed { OnOk result ((naming : Naming) (last : ℕ) → AreNumbered naming events.now
        → IsJudge sought naming events.now last judge.old
        → AreKeys naming.variables [] claims.now keys.now.keys
        → AreMissed sought naming events.now claims.now missed.new) }
    ensures stays { OnOk result (StaysJudge events.now judge.old judge.new) }
{
    missed.events = events_part(alloc, judge, events, claims, keys)?;
    missed.pairs = pairs_part(alloc, sought, events, claims, keys)?;
    missed.locations = locations_part(alloc, judge, events, claims)?;
    missed.variables = variables_part(alloc, judge, events, claims, keys)?;
    missed.firsts = firsts_part(alloc, judge, events, claims, keys)?;
    Ok(())
}

/// Returns what the claims of a report missed of a trace. It fails if memory runs out, and then the judge is of no use.
pub fn missed_of(
    alloc: Global,
    sought: Sought,
    judge: &mut Judge,
    events: &[Event],
    claims: &[LinedClaim<'_>],
) -> Result<Missed, AllocError>
    requires by_line { AreByLine events.now }
    requires judge { IsSomeJudge events.now judge.old }
    ensures missed { IfOk result (λ missed. (naming : Naming) (last : ℕ)
        → AreNumbered naming events.now → IsJudge sought naming events.now last judge.old
        → AreMissed sought naming events.now claims.now missed) }
    ensures stays { OnOk result (StaysJudge events.now judge.old judge.new) }
{
    let keys = named_keys(alloc, judge, claims)?;
    let mut missed = Missed {
        events: Vec::new(alloc),
        pairs: Vec::new(alloc),
        locations: Vec::new(alloc),
        variables: Vec::new(alloc),
        firsts: Vec::new(alloc),
    };
    fill(alloc, sought, judge, events, claims, &keys, &mut missed)?;
    Ok(missed)
}
