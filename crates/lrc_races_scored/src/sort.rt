// The sorts of claims.
ghost use Rattle.std.specs.Prelude.{◌≡◌};
ghost use Rattle.lrc_races_score.specs.Claims.{statement_of};
ghost use Rattle.lrc_races_scored.specs.Sorts.{is_of, sort_word};

use lrc_races_score::claim::Claim;

/// A sort of claims, in the order in which they are scored.
#[derive(Clone, Copy, PartialEq, Eq)]
pub enum Sort {
    /// Claims `event`.
    Events,
    /// Claims `pair`.
    Pairs,
    /// Claims `locations`.
    Locations,
    /// Claims `variable`.
    Variables,
    /// Claims `first`.
    Firsts,
}

impl Sort {
    /// Returns the word of its claims.
    pub fn word(self) -> &'static [u8]
        ensures { result.now ≡ sort_word self }
    {
        match self {
            Sort::Events => b"event",
            Sort::Pairs => b"pair",
            Sort::Locations => b"locations",
            Sort::Variables => b"variable",
            Sort::Firsts => b"first",
        }
    }

    /// Returns whether a claim is of the sort.
    pub fn has(self, claim: Claim<'_>) -> bool
        ensures { result ≡ is_of self (statement_of claim.entry) }
    {
        match claim {
            Claim::Event(_) => self == Sort::Events,
            Claim::Pair(_, _) => self == Sort::Pairs,
            Claim::Locations(_, _) => self == Sort::Locations,
            Claim::Variable(_) => self == Sort::Variables,
            Claim::First(_, _) => self == Sort::Firsts,
        }
    }
}
