// Races of a picture.

ghost use Rattle.std.specs.Prelude.{◌≡◌, ◌+◌, ◌++◌, IfOk, OnOk, map};
ghost use Rattle.lrc_text.specs.Each.{each};
ghost use Rattle.lrc_explain.specs.Groups.{access_kind_text};
ghost use Rattle.lrc_chart_build.specs.Races.{hint_by, hint_of, label_of, race_at, race_between, race_if, shown_races};
ghost use Rattle.lrc_chart_build.specs.Seen.{seen_race};

use crate::course::Known;
use crate::part::{Place, shown_act};
use lrc_chart_model::Race;
use lrc_explain::{Site, act_at, leaders_of, site_of};
use lrc_judge::first_pairs::Pair;
use lrc_judge::races::word_of;
use lrc_labels::push_word_label;
use lrc_text::push_number;
use lrc_trace::act::Act;
use std::alloc::{AllocError, Global};

fn kind_of(writes: bool) -> &'static [u8]
    ensures { result.now ≡ access_kind_text writes }
{
    if writes { b" write" } else { b" read" }
}

// The lines and kinds of a group.
fn label_of(alloc: Global, site: Site) -> Result<Vec<u8>, AllocError>
    ensures { IfOk result (λ label. label.items ≡ label_of site) }
{
    let mut label = Vec::new(alloc);
    push_number(&mut label, b"race line ", u64::from(site.line))?;
    label.extend_from_slice(kind_of(site.writes))?;
    push_number(&mut label, b", line ", u64::from(site.later_line))?;
    label.extend_from_slice(kind_of(site.later_writes))?;
    Ok(label)
}

// The word of two acts, with its label, and their positions.
fn hint_of(alloc: Global, known: &Known<'_>, pair: Pair) -> Result<Vec<u8>, AllocError>
    ensures { IfOk result (λ hint. hint.items ≡ hint_of known.now pair) }
{
    let word = word_of(act_at(known.acts, pair.later).deed);
    let mut hint = Vec::new(alloc);
    push_number(&mut hint, b"word ", u64::from(word))?;
    push_word_label(&mut hint, known.labels, word)?;
    push_number(&mut hint, b", act ", pair.earlier as u64)?;
    push_number(&mut hint, b", act ", pair.later as u64)?;
    Ok(hint)
}

fn race_between(
    alloc: Global,
    known: &Known<'_>,
    number: usize,
    pair: Pair,
    from: usize,
    to: usize,
) -> Result<Race, AllocError>
    ensures { IfOk result (λ race. seen_race race ≡ race_between known.now number pair from to) }
{
    Ok(Race {
        number,
        from,
        first: act_at(known.acts, pair.earlier).node,
        to,
        second: act_at(known.acts, pair.later).node,
        label: label_of(alloc, site_of(known.acts, known.lines, pair))?,
        hint: hint_of(alloc, known, pair)?,
    })
}

// Adds a race between the rows at these places, if they are there.
fn push_between(
    alloc: Global,
    races: &mut Vec<Race>,
    known: &Known<'_>,
    number: usize,
    pair: Pair,
    from: Option<usize>,
    to: Option<usize>,
) -> Result<(), AllocError>
    ensures { OnOk result (map seen_race races.new.items
        ≡ map seen_race races.old.items ++ race_if known.now number pair from to) }
{
    match (from, to) {
        (Some(from), Some(to)) => {
            races.push(race_between(alloc, known, number, pair, from, to)?)?;
            Ok(())
        }
        _ => Ok(()),
    }
}

fn push_race(
    alloc: Global,
    races: &mut Vec<Race>,
    known: &Known<'_>,
    places: &[Place],
    number: usize,
    pair: Pair,
) -> Result<(), AllocError>
    ensures { OnOk result (map seen_race races.new.items
        ≡ map seen_race races.old.items ++ race_at known.now places.now number pair) }
{
    let from = shown_act(places, pair.earlier);
    let to = shown_act(places, pair.later);
    push_between(alloc, races, known, number, pair, from, to)
}

// The races of these pairs, which are numbered from 1, where both acts are at these places.
fn races_between(
    alloc: Global,
    known: &Known<'_>,
    found: &[Pair],
    places: &[Place],
) -> Result<Vec<Race>, AllocError>
    ensures { IfOk result (λ races. map seen_race races.items
        ≡ each (λ before pair. race_at known.now places.now (before + 1) pair) found.now) }
{
    let mut races = Vec::new(alloc);
    for (before, pair) in found.iter().enumerate() {
        push_race(alloc, &mut races, known, places, before + 1, *pair)?;
    }
    Ok(races)
}

/// Returns the two acts of the least pair of each group of races, if both are at these places.
pub fn races_of(alloc: Global, known: &Known<'_>, places: &[Place]) -> Result<Vec<Race>, AllocError>
    ensures { IfOk result (λ races. map seen_race races.items ≡ shown_races known.now places.now) }
{
    let found = leaders_of(alloc, known.acts, known.lines, known.pairs)?;
    races_between(alloc, known, found.as_slice(), places)
}
