// The claims of a report, by numbers.
ghost use Rattle.std.specs.Prelude.{◌≡◌, ◌⊎◌, ◌↔◌, ℕ, Contains, IfOk, List, MatchOption, OnOk, Some};
ghost use Rattle.lrc_races_score.specs.Claims.{first, locations, statement_of, variable};
ghost use Rattle.lrc_races_claims.specs.Known.{IsOnlyNumber, IsUnknown, known_names};
ghost use Rattle.lrc_races_claims.specs.declared.places.TwoPlaces.{TwoPlaces as AnyPlaces};
ghost use Rattle.lrc_races_missed.specs.Keys.{AreKeys, AreTwoNumbers, IsKeyFound};
ghost use Rattle.lrc_races_missed.specs.declared.key.Key.{Key as AnyKey};

use crate::key::{Key, add};
use indexmap::IndexSet;
use lrc_races_claims::known::KnownNames;
use lrc_races_claims::places::TwoPlaces;
use lrc_races_score::claim::Claim;
use lrc_races_score::report::LinedClaim;
use std::alloc::{AllocError, Global};

/// Returns the numbers of two places, if the trace has both. It fails if memory runs out.
pub(crate) fn two_places(
    places: &mut KnownNames,
    place: &[u8],
    other: &[u8],
) -> Result<Option<TwoPlaces>, AllocError>
    ensures found { IfOk result (λ found. (both : AnyPlaces)
        → AreTwoNumbers (known_names places.old) place.now other.now both ↔ (found ≡ Some both)) }
    ensures kept { OnOk result (known_names places.new ≡ known_names places.old) }
{
    let earlier = places.find(place)?;
    let later = places.find(other)?;
    Ok(both_of(earlier, later))
}

// Both numbers, if there are two.
fn both_of(earlier: Option<usize>, later: Option<usize>) -> Option<TwoPlaces>
    ensures { (names : List (List ℕ)) (place other : List ℕ)
        → MatchOption earlier (IsUnknown names place) (IsOnlyNumber names place)
        → MatchOption later (IsUnknown names other) (IsOnlyNumber names other)
        → (both : AnyPlaces) → AreTwoNumbers names place other both ↔ (result ≡ Some both) }
{
    match earlier {
        Some(earlier) => match later {
            Some(later) => Some(TwoPlaces { earlier, later }),
            None => None,
        },
        None => None,
    }
}

// The key of a claim of two places, by their numbers.
fn places_key(both: Option<TwoPlaces>) -> Option<Key>
    ensures { (variables places : List (List ℕ)) (place other : List ℕ)
        → ((numbers : AnyPlaces) → AreTwoNumbers places place other numbers ↔ (both ≡ Some numbers))
        → IsKeyFound variables places (locations place other) result }
{
    match both {
        Some(both) => Some(Key::Places(both.earlier, both.later)),
        None => None,
    }
}

// The key of a claim of a variable, by its number.
fn variable_key(number: Option<usize>) -> Option<Key>
    ensures { (variables places : List (List ℕ)) (name : List ℕ)
        → MatchOption number (IsUnknown variables name) (IsOnlyNumber variables name)
        → IsKeyFound variables places (variable name) result }
{
    match number {
        Some(number) => Some(Key::Variable(number)),
        None => None,
    }
}

// The key of a claim of the first access of a variable that races, by its number.
fn first_key(number: Option<usize>, line: u64) -> Option<Key>
    ensures { (variables places : List (List ℕ)) (name : List ℕ)
        → MatchOption number (IsUnknown variables name) (IsOnlyNumber variables name)
        → IsKeyFound variables places (first name line) result }
{
    match number {
        Some(number) => Some(Key::First(number, line)),
        None => None,
    }
}

// The key of a claim, if the trace has the names that it has.
fn key_of(
    variables: &mut KnownNames,
    places: &mut KnownNames,
    claim: Claim<'_>,
) -> Result<Option<Key>, AllocError>
    ensures key { IfOk result (IsKeyFound (known_names variables.old) (known_names places.old)
        (statement_of claim.entry)) }
    ensures variables { OnOk result (known_names variables.new ≡ known_names variables.old) }
    ensures places { OnOk result (known_names places.new ≡ known_names places.old) }
{
    match claim {
        Claim::Event(line) => Ok(Some(Key::Event(line))),
        Claim::Pair(line, other) => Ok(Some(Key::Pair(line, other))),
        Claim::Locations(place, other) => {
            let both = two_places(places, place, other)?;
            Ok(places_key(both))
        }
        Claim::Variable(name) => {
            let number = variables.find(name)?;
            Ok(variable_key(number))
        }
        Claim::First(name, line) => {
            let number = variables.find(name)?;
            Ok(first_key(number, line))
        }
    }
}

// Adds a key, if there is one.
fn add_some(keys: &mut IndexSet<Key>, key: Option<Key>) -> Result<(), AllocError>
    ensures { OnOk result ((other : AnyKey) → Contains keys.new.keys other
        ↔ (Contains keys.old.keys other ⊎ (key ≡ Some other))) }
{
    match key {
        Some(key) => add(keys, key),
        None => Ok(()),
    }
}

/// Returns the keys of the claims of a report, as far as the trace has the names that they have. It fails if memory runs
/// out.
pub fn keys_of(
    alloc: Global,
    claims: &[LinedClaim<'_>],
    variables: &mut KnownNames,
    places: &mut KnownNames,
) -> Result<IndexSet<Key>, AllocError>
    ensures keys { IfOk result (λ keys. AreKeys (known_names variables.old)
        (known_names places.old) claims.now keys.keys) }
    ensures variables { OnOk result (known_names variables.new ≡ known_names variables.old) }
    ensures places { OnOk result (known_names places.new ≡ known_names places.old) }
{
    let mut keys = IndexSet::new(alloc);
    for lined in claims {
        let key = key_of(variables, places, lined.claim)?;
        add_some(&mut keys, key)?;
    }
    Ok(keys)
}
