// The places of accesses, and which of them race.
ghost use Rattle.std.specs.Prelude.{◌≡◌, ◌+◌, ◌⊎◌, ◌↔◌, ℕ, List, Contains, IfOk, IsTrue, MatchOption, OnOk, length};
ghost use Rattle.lrc_races_trace.specs.declared.event.Event.{Event as AnyEvent};
ghost use Rattle.lrc_races_trace.specs.declared.event.Pair.{Pair as AnyPair};
ghost use Rattle.lrc_races_trace.specs.Trace.{At};
ghost use Rattle.lrc_races_lines.specs.Table.{names_of};
ghost use Rattle.lrc_races_text.specs.declared.asked.Sought.{Sought as AnySought};
ghost use Rattle.lrc_races_text.specs.Naming.{Naming};
ghost use Rattle.lrc_races_text.specs.Spelled.{side_place};
ghost use Rattle.lrc_races_text.specs.Tables.{naming_of};
ghost use Rattle.lrc_races_score.specs.Claims.{locations};
ghost use Rattle.lrc_races_claims.specs.Known.{IsOnlyNumber, IsUnknown, known_names};
ghost use Rattle.lrc_races_claims.specs.Placed.{ArePlaceNames, ArePlaces, AreNumbersOf, HasSamePlaces};
ghost use Rattle.lrc_races_claims.specs.Truth.{IsJudged};
ghost use Rattle.lrc_races_claims.specs.declared.places.TwoPlaces.{TwoPlaces as AnyPlaces};
ghost use Rattle.lrc_races_claims.specs.declared.places.Places.{Places as KnownPlaces};

use crate::known::KnownNames;
use crate::verdict::{Reason, Verdict};
use indexmap::IndexSet;
use lrc_races_lines::table::Table;
use lrc_races_locations::detector::locations_of;
use lrc_races_text::asked::Sought;
use lrc_races_text::naming::Names;
use lrc_races_trace::event::{Event, Operation, Pair};
use std::alloc::{AllocError, Global};

/// The numbers of two places.
#[derive(Clone, Copy, PartialEq, Eq, Hash)]
pub struct TwoPlaces {
    /// That of the earlier access.
    pub earlier: usize,
    /// That of the later access.
    pub later: usize,
}

/// The places of the accesses of a trace, and which of them race.
#[derive(Drop)]
pub struct Places {
    /// The names of the places: locations, and `-` for accesses without one.
    pub names: KnownNames,
    /// The places of each two accesses that race.
    pub pairs: IndexSet<TwoPlaces>,
    /// The pairs of accesses that show them.
    pub shown: Vec<Pair>,
}

/// Returns the name of a place.
pub fn place_name(names: &Names, location: Option<u32>) -> &[u8]
    ensures { result.now ≡ side_place (naming_of names.now) location }
{
    match location {
        Some(location) => match names.locations.name(location as usize) {
            Some(name) => name,
            None => &[],
        },
        None => b"-",
    }
}

// Adds the name of the place of an access.
fn note_place(table: &mut Table, names: &Names, event: Event) -> Result<(), AllocError>
    ensures { OnOk result ((events : List AnyEvent) (n : ℕ) → At events n event
        → ArePlaceNames (naming_of names.now) events n (names_of table.old)
        → ArePlaceNames (naming_of names.now) events (n + 1) (names_of table.new)) }
{
    match event.operation {
        Operation::Read(_variable) | Operation::Write(_variable) => {
            table.number(place_name(names, event.location))?;
            Ok(())
        }
        _ => Ok(()),
    }
}

// The names of the places of all accesses.
fn place_names(alloc: Global, names: &Names, events: &[Event]) -> Result<Table, AllocError>
    ensures { IfOk result (λ table.
        ArePlaceNames (naming_of names.now) events.now (length events.now) (names_of table)) }
{
    let mut table = Table::new(alloc);
    for event in events {
        note_place(&mut table, names, *event)?;
    }
    Ok(table)
}

/// Returns whether these two places are among the pairs.
pub fn are_there(pairs: &IndexSet<TwoPlaces>, earlier: usize, later: usize) -> bool
    ensures { IsTrue result ↔ Contains pairs.now.keys (record { earlier = earlier; later = later }) }
{
    match pairs.get_full(&TwoPlaces { earlier, later }) {
        Some((_place, _met)) => true,
        None => false,
    }
}

/// Adds two places to the pairs.
pub fn add_pair(
    pairs: &mut IndexSet<TwoPlaces>,
    earlier: usize,
    later: usize,
) -> Result<(), AllocError>
    ensures { OnOk result ((places : AnyPlaces) → Contains pairs.new.keys places
        ↔ (Contains pairs.old.keys places
        ⊎ (places ≡ record { earlier = earlier; later = later }))) }
{
    pairs.insert(TwoPlaces { earlier, later })?;
    Ok(())
}

// Adds two places that race, if both have numbers.
fn add_both(
    pairs: &mut IndexSet<TwoPlaces>,
    earlier: Option<usize>,
    later: Option<usize>,
) -> Result<(), AllocError>
    ensures { OnOk result ((naming : Naming) (names : List (List ℕ)) (pair : AnyPair)
        (name other : List ℕ) → name ≡ side_place naming pair.earlier.event.location
        → other ≡ side_place naming pair.later.event.location
        → MatchOption earlier (IsUnknown names name) (IsOnlyNumber names name)
        → MatchOption later (IsUnknown names other) (IsOnlyNumber names other)
        → (both : AnyPlaces) → Contains pairs.new.keys both
        ↔ (Contains pairs.old.keys both ⊎ AreNumbersOf naming names pair both)) }
{
    match earlier {
        Some(earlier) => match later {
            Some(later) => {
                add_pair(pairs, earlier, later)?;
                Ok(())
            }
            None => Ok(()),
        },
        None => Ok(()),
    }
}

// Adds the places of a pair of accesses that race.
fn note_pair(places: &mut Places, names: &Names, pair: Pair) -> Result<(), AllocError>
    ensures pairs { OnOk result ((both : AnyPlaces) → Contains places.new.pairs.keys both
        ↔ (Contains places.old.pairs.keys both
        ⊎ AreNumbersOf (naming_of names.now) (known_names places.old.names) pair both)) }
    ensures kept { OnOk result (known_names places.new.names ≡ known_names places.old.names) }
{
    let name = place_name(names, pair.earlier.event.location);
    let earlier = places.names.find(name)?;
    let other = place_name(names, pair.later.event.location);
    let later = places.names.find(other)?;
    add_both(&mut places.pairs, earlier, later)
}

/// Returns the places of the accesses of a trace, and which of them race. It fails if memory runs out.
pub fn places_of(
    alloc: Global,
    sought: Sought,
    names: &Names,
    events: &[Event],
) -> Result<Places, AllocError>
    ensures { IfOk result (ArePlaces sought (naming_of names.now) events.now) }
{
    let shown = locations_of(alloc, sought, events)?;
    let table = place_names(alloc, names, events)?;
    let mut places = Places {
        names: KnownNames::new(table),
        pairs: IndexSet::new(alloc),
        shown: Vec::new(alloc),
    };
    for pair in shown.as_slice() {
        note_pair(&mut places, names, *pair)?;
    }
    places.shown = shown;
    Ok(places)
}

// What is said of two places, by their numbers.
fn judge_places(pairs: &IndexSet<TwoPlaces>, first: Option<usize>, second: Option<usize>) -> Verdict
    ensures { (sought : AnySought) (naming : Naming) (events : List AnyEvent) (last : ℕ)
        (places : KnownPlaces) (place other : List ℕ) → ArePlaces sought naming events places
        → places.pairs.keys ≡ pairs.now.keys
        → MatchOption first (IsUnknown (known_names places.names) place)
        (IsOnlyNumber (known_names places.names) place)
        → MatchOption second (IsUnknown (known_names places.names) other)
        (IsOnlyNumber (known_names places.names) other)
        → IsJudged sought naming events last (locations place other) result }
{
    match first {
        Some(first) => match second {
            Some(second) => {
                if are_there(pairs, first, second) {
                    return Verdict::True;
                }
                if are_there(pairs, second, first) {
                    return Verdict::True;
                }
                Verdict::False(Reason::PlacesApart)
            }
            None => Verdict::False(Reason::NoneAtSecond),
        },
        None => Verdict::False(Reason::NoneAtFirst),
    }
}

/// Returns what is said of the claim that some two accesses at two places race. It fails if memory runs out.
pub fn judge_locations(
    places: &mut Places,
    place: &[u8],
    other: &[u8],
) -> Result<Verdict, AllocError>
    ensures judged { IfOk result (λ verdict. (sought : AnySought) (naming : Naming)
        (events : List AnyEvent) (last : ℕ) → ArePlaces sought naming events places.old
        → IsJudged sought naming events last (locations place.now other.now) verdict) }
    ensures kept { OnOk result (HasSamePlaces places.old places.new) }
{
    let first = places.names.find(place)?;
    let second = places.names.find(other)?;
    Ok(judge_places(&places.pairs, first, second))
}
