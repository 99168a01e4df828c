// Barriers of a picture.

ghost use Rattle.std.specs.Prelude.{◌≡◌, ◌==◌, ◌∷◌, ◌++◌, [], ℕ, IfOk, List, OnOk, if◌then◌else◌, map};
ghost use Rattle.lrc_trace.specs.declared.act.Act.{Act as AnyAct};
ghost use Rattle.lrc_chart_build.specs.Bands.{band, band_at, band_if, barrier_at, barrier_of, barrier_of_act, barriers};
ghost use Rattle.lrc_chart_build.specs.Bands.{last_or, places_of, shown_bands};
ghost use Rattle.lrc_chart_build.specs.Counts.{AreCounts, AreCountsAt};
ghost use Rattle.lrc_chart_build.specs.Seen.{seen_band};
ghost use Rattle.lrc_text.specs.Each.{each};

use crate::counts::Counts;
use crate::part::Place;
use lrc_chart_model::Band;
use lrc_text::push_number;
use lrc_trace::act::{Act, Deed};
use std::alloc::{AllocError, Global};

// The number of the barrier that an act comes to or leaves, where the counts are those at its position; 0 at another deed.
fn barrier_of(counts: &Counts, act: Act) -> u64
    ensures { (acts : List AnyAct) (position : ℕ) → AreCounts acts position counts.now
        → result ≡ barrier_of acts position act.node act.deed }
{
    match act.deed {
        Deed::Arrive => counts.arrival(act.node),
        Deed::Depart => counts.departure(act.node),
        _ => 0,
    }
}

fn barrier_of_act(acts: &[Act], counts: &Counts, position: usize) -> u64
    requires { AreCounts acts.now position counts.now }
    ensures { result ≡ barrier_at acts.now (Some position) }
{
    match acts.get(position) {
        Some(act) => barrier_of(counts, *act),
        None => 0,
    }
}

/// Returns the number of the barrier that the act at a position reaches or leaves, given the counts there, or 0 for
/// another deed or no act.
pub(crate) fn barrier_at(acts: &[Act], counts: &Counts, act: Option<usize>) -> u64
    requires { AreCountsAt acts.now act counts.now }
    ensures { result ≡ barrier_at acts.now act }
{
    match act {
        Some(position) => barrier_of_act(acts, counts, position),
        None => 0,
    }
}

// The barrier of each row.
fn barriers(alloc: Global, acts: &[Act], places: &[Place]) -> Result<Vec<u64>, AllocError>
    ensures { IfOk result (λ numbers. numbers.items ≡ barriers acts.now places.now) }
{
    let mut numbers = Vec::new(alloc);
    let mut counts = Counts::new();
    for place in places {
        counts.go_to_act(acts, place.act);
        numbers.push(barrier_at(acts, &counts, place.act))?;
    }
    Ok(numbers)
}

fn push_place(places: &mut Vec<usize>, place: usize, is_there: bool) -> Result<(), AllocError>
    ensures { OnOk result (places.new.items
        ≡ places.old.items ++ (if is_there then place ∷ [] else [])) }
{
    if is_there {
        places.push(place)?;
    }
    Ok(())
}

// The places of a number.
fn places_of(alloc: Global, number: u64, numbers: &[u64]) -> Result<Vec<usize>, AllocError>
    ensures { IfOk result (λ places. places.items ≡ places_of number numbers.now) }
{
    let mut places = Vec::new(alloc);
    for (place, other) in numbers.iter().enumerate() {
        push_place(&mut places, place, *other == number)?;
    }
    Ok(places)
}

fn last_or(other: usize, numbers: &[usize]) -> usize
    ensures { result ≡ last_or other numbers.now }
{
    let mut last = other;
    for number in numbers {
        last = *number;
    }
    last
}

fn band(alloc: Global, number: u64, from: usize, to: usize) -> Result<Band, AllocError>
    ensures { IfOk result (λ made. seen_band made ≡ band number from to) }
{
    let mut label = Vec::new(alloc);
    push_number(&mut label, b"barrier ", number)?;
    Ok(Band { from, to, label })
}

// Adds a band at the first of these places.
fn push_band_at(
    alloc: Global,
    bands: &mut Vec<Band>,
    number: u64,
    place: usize,
    places: &[usize],
) -> Result<(), AllocError>
    ensures { OnOk result (map seen_band bands.new.items
        ≡ map seen_band bands.old.items ++ band_at number place places.now) }
{
    match places {
        [first, more @ ..] => {
            if *first == place {
                bands.push(band(alloc, number, *first, last_or(*first, more))?)?;
            }
        }
        [] => {}
    }
    Ok(())
}

// Adds the band of the number at a place, if it is a barrier's and this is its first place.
fn push_band(
    alloc: Global,
    bands: &mut Vec<Band>,
    numbers: &[u64],
    place: usize,
    number: u64,
) -> Result<(), AllocError>
    ensures { OnOk result (map seen_band bands.new.items
        ≡ map seen_band bands.old.items ++ band_if numbers.now place number) }
{
    if number == 0 {
        return Ok(());
    }
    let places = places_of(alloc, number, numbers)?;
    push_band_at(alloc, bands, number, place, places.as_slice())
}

fn push_bands(alloc: Global, bands: &mut Vec<Band>, numbers: &[u64]) -> Result<(), AllocError>
    ensures { OnOk result (map seen_band bands.new.items
        ≡ map seen_band bands.old.items ++ each (band_if numbers.now) numbers.now) }
{
    for (place, number) in numbers.iter().enumerate() {
        push_band(alloc, bands, numbers, place, *number)?;
    }
    Ok(())
}

/// Returns a band for each barrier that a node reaches or leaves at one of these places.
pub fn bands_of(alloc: Global, acts: &[Act], places: &[Place]) -> Result<Vec<Band>, AllocError>
    ensures { IfOk result (λ bands. map seen_band bands.items ≡ shown_bands acts.now places.now) }
{
    let numbers = barriers(alloc, acts, places)?;
    let mut bands = Vec::new(alloc);
    push_bands(alloc, &mut bands, numbers.as_slice())?;
    Ok(bands)
}
