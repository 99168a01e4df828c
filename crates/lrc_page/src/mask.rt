ghost use Rattle.std.specs.Prelude.{◌≡◌, ◌↔◌, ◌==◌, ◌||◌, ℕ, IsTrue, false};
ghost use Rattle.lrc_page.specs.Mask.{has, no_offsets, with_offset, Meets};

use std::marker::Model;

/// A set of words of one page, given by their offsets: 256 bits, one for each offset, for pages of either size.
#[derive(Clone, Copy, PartialEq, Eq, Hash)]
pub struct Mask {
    words: [u64; 4],
}

impl Model for Mask {
    ghost use Rattle.std.specs.Prelude.{ℕ, List};

    ghost Value = { List ℕ };

    ghost view = { λ mask. mask.words };

    ghost inverse = { λ words. record { words = words } };
}

impl Mask {
    /// Returns the empty set.
    pub fn none() -> Self
        ensures members { (offset : ℕ) → has result offset ≡ false }
        ensures exact { result ≡ no_offsets }
    {
        Mask { words: [0; 4] }
    }

    /// Returns the set with the given offset added.
    pub fn with(&self, offset: u8) -> Self
        ensures members { (other : ℕ) → has result other ≡ (other == offset || has self.now other) }
        ensures exact { result ≡ with_offset self.now offset }
    {
        let mut words = self.words;
        let place = usize::from(offset / 64);
        words[place] |= 1 << (offset % 64);
        Mask { words }
    }

    /// Returns whether the offset is a member.
    pub fn has(&self, offset: u8) -> bool
        ensures { result ≡ has self.now offset }
    {
        self.words[usize::from(offset / 64)] >> (offset % 64) & 1 == 1
    }

    /// Returns whether the two sets share a member.
    pub fn meets(&self, other: &Mask) -> bool
        ensures { IsTrue result ↔ Meets self.now other.now }
    {
        for place in 0..4 {
            if self.words[place] & other.words[place] != 0 {
                return true;
            }
        }
        false
    }
}
