// Parts of lists of places, by their words.

ghost use Rattle.std.specs.Prelude.{◌≡◌, ◌≤◌, Contains, nat_le, nat_lt};
ghost use Rattle.lrc_race.specs.declared.places.TouchedPlace.{TouchedPlace};
ghost use Rattle.lrc_race.specs.Places.{AreInOrder, IsPartOf};

use crate::places::TouchedPlace;

// The places of words from this one on.
fn from_word(places: &[TouchedPlace], word: u32) -> &[TouchedPlace]
    requires { AreInOrder places.now }
    ensures { IsPartOf places.now result.now (λ p. word ≤ p.word) }
{
    let start = places.partition_point(
        |place: &TouchedPlace| -> bool
            ensures { result ≡ nat_lt place.now.word word }
        { place.word < word },
    );
    &places[start..]
}

// The places of words up to this one.
fn up_to_word(places: &[TouchedPlace], word: u32) -> &[TouchedPlace]
    requires { AreInOrder places.now }
    ensures { IsPartOf places.now result.now (λ p. p.word ≤ word) }
{
    let end = places.partition_point(
        |place: &TouchedPlace| -> bool
            ensures { result ≡ nat_le place.now.word word }
        { place.word <= word },
    );
    &places[..end]
}

/// Returns the places of the words from the first to the last word of another list. They include every place whose word
/// is in that list.
pub fn places_near<'a>(places: &'a [TouchedPlace], others: &[TouchedPlace]) -> &'a [TouchedPlace]
    requires sorted { AreInOrder places.now }
    requires others { AreInOrder others.now }
    ensures { IsPartOf places.now result.now
        (λ p. (q : TouchedPlace) × Contains others.now q × (q.word ≡ p.word)) }
{
    if others.is_empty() {
        return &places[..0];
    }
    let rest = from_word(places, others[0].word);
    up_to_word(rest, others[others.len() - 1].word)
}
