// Ranges of values.

/// The values from the least one to the greatest one. If the greatest one is 2^64 - 1, there is no greatest value.
#[derive(Clone, Copy, PartialEq, Eq)]
pub struct Range {
    pub least: u64,
    pub greatest: u64,
}

impl Range {
    ghost use Rattle.std.specs.Prelude.{◌≡◌, ◌≤◌, ◌<◌, ◌-◌, ◌^◌, ◌↔◌, ℕ, IsTrue, true};
    ghost use Rattle.lrc_ranges.specs.Ranges.{IsIn, IsWithin};
    ghost use Rattle.lrc_ranges.specs.declared.range.Range.{Range as TheRange};

    /// Returns the range of all values.
    pub fn any() -> Range
        ensures { (value : ℕ) → IsIn result value }
    {
        Range {
            least: 0,
            greatest: u64::MAX,
        }
    }

    /// Returns the range of one value.
    pub fn only(value: u64) -> Range
        ensures has { IsIn result value }
        ensures alone { (other : ℕ) → value < 2 ^ 64 - 1 → IsIn result other → other ≡ value }
    {
        Range {
            least: value,
            greatest: value,
        }
    }

    /// Returns whether there is a greatest value.
    pub fn is_bounded(self) -> bool
        ensures { IsTrue result ↔ (self.greatest < 2 ^ 64 - 1) }
    {
        self.greatest < u64::MAX
    }

    /// Returns whether a value lies in the range.
    pub fn has(self, value: u64) -> bool
        ensures { IsTrue result ↔ IsIn self value }
    {
        self.least <= value && (value <= self.greatest || !self.is_bounded())
    }

    /// Returns whether all values of another range lie in this one.
    pub fn covers(self, other: Range) -> bool
        ensures { result ≡ true → IsWithin other self }
    {
        self.least <= other.least && other.greatest <= self.greatest
    }

    /// Returns the least range that has the values of both.
    pub fn joined(self, other: Range) -> Range
        ensures first { IsWithin self result }
        ensures second { IsWithin other result }
        ensures least { (third : TheRange) → third.least ≤ self.least → third.least ≤ other.least
            → third.least ≤ result.least }
        ensures greatest { (third : TheRange) → self.greatest ≤ third.greatest
            → other.greatest ≤ third.greatest → result.greatest ≤ third.greatest }
    {
        Range {
            least: self.least.min(other.least),
            greatest: self.greatest.max(other.greatest),
        }
    }

    /// Returns a range that has the values of both, and no bound where the second one goes past the first one.
    pub fn widened(self, other: Range) -> Range
        ensures first { IsWithin self result }
        ensures second { IsWithin other result }
    {
        Range {
            least: if other.least < self.least {
                0
            } else {
                self.least
            },
            greatest: if self.greatest < other.greatest {
                u64::MAX
            } else {
                self.greatest
            },
        }
    }
}
