// The racing pairs of locations that a report missed.
ghost use Rattle.std.specs.Prelude.{◌≡◌, ◌↔◌, ℕ, IfOk, IsTrue, List, OnOk, length};
ghost use Rattle.lrc_races_trace.specs.declared.event.Event.{Event as AnyEvent};
ghost use Rattle.lrc_races_lines.specs.Table.{names_of};
ghost use Rattle.lrc_races_text.specs.declared.asked.Sought.{Sought as AnySought};
ghost use Rattle.lrc_races_text.specs.Naming.{Naming};
ghost use Rattle.lrc_races_locations.specs.Located.{AreShown};
ghost use Rattle.lrc_races_score.specs.declared.report.LinedClaim.{LinedClaim as AnyClaim};
ghost use Rattle.lrc_races_claims.specs.Known.{known_names};
ghost use Rattle.lrc_races_claims.specs.Placed.{ArePlaceNames};
ghost use Rattle.lrc_races_missed.specs.Keys.{AreKeys};
ghost use Rattle.lrc_races_missed.specs.Locating.{IsNew, IsNoted};
ghost use Rattle.lrc_races_missed.specs.Missed.{AreMissedLocations};

use crate::key::{Key, is_among};
use crate::keys::two_places;
use indexmap::IndexSet;
use lrc_races_claims::known::KnownNames;
use lrc_races_claims::places::{TwoPlaces, add_pair, are_there, place_name};
use lrc_races_text::naming::Names;
use lrc_races_trace::event::Pair;
use std::alloc::{AllocError, Global};

// Whether two places were not met before, and no claim has them, in either order.
fn is_new(met: &IndexSet<TwoPlaces>, keys: &IndexSet<Key>, both: TwoPlaces) -> bool
    ensures { IsTrue result ↔ IsNew met.now.keys keys.now.keys both }
{
    let TwoPlaces { earlier, later } = both;
    if are_there(met, earlier, later) {
        return false;
    }
    if are_there(met, later, earlier) {
        return false;
    }
    if is_among(keys, Key::Places(earlier, later)) {
        return false;
    }
    !is_among(keys, Key::Places(later, earlier))
}

// Adds the pair, if its places are new.
fn note(
    met: &mut IndexSet<TwoPlaces>,
    missed: &mut Vec<Pair>,
    keys: &IndexSet<Key>,
    found: Option<TwoPlaces>,
    pair: Pair,
) -> Result<(), AllocError>
    ensures { OnOk result (IsNoted keys.now.keys pair met.old.keys met.new.keys missed.old.items
        missed.new.items found) }
{
    let Some(both) = found else {
        return Ok(());
    };
    if is_new(met, keys, both) {
        missed.push(pair)?;
    }
    add_pair(met, both.earlier, both.later)
}

/// Returns the pairs that show two places that race, each two places once, but those that a claim `locations` has, in
/// either order. `shown` are the pairs of locations that race, `places` are the places of the trace, and `keys` are those
/// of the claims. It fails if memory runs out.
pub fn missed_locations(
    alloc: Global,
    shown: &[Pair],
    places: &mut KnownNames,
    names: &Names,
    keys: &IndexSet<Key>,
) -> Result<Vec<Pair>, AllocError>
    ensures missed { IfOk result (λ missed. (sought : AnySought) (naming : Naming)
        (events : List AnyEvent) (claims : List AnyClaim) (variables : List (List ℕ))
        → naming.locations ≡ names_of names.now.locations
        → ArePlaceNames naming events (length events) (known_names places.old)
        → AreShown sought events shown.now
        → AreKeys variables (known_names places.old) claims keys.now.keys
        → AreMissedLocations sought naming events claims missed.items) }
    ensures kept { OnOk result (known_names places.new ≡ known_names places.old) }
{
    let mut met = IndexSet::new(alloc);
    let mut missed = Vec::new(alloc);
    for pair in shown {
        let place = place_name(names, pair.earlier.event.location);
        let other = place_name(names, pair.later.event.location);
        let found = two_places(places, place, other)?;
        note(&mut met, &mut missed, keys, found, *pair)?;
    }
    Ok(missed)
}
