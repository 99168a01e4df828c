// Random numbers.

ghost use Rattle.std.specs.Prelude.{◌≤◌};

/// The generator SplitMix64 (Steele, Lea and Flood 2014).
#[derive(Drop)]
pub struct Random {
    state: u64,
}

impl Random {
    pub fn new(seed: u64) -> Random {
        Random { state: seed }
    }

    pub fn number(&mut self) -> u64 {
        self.state = self.state.wrapping_add(0x9e37_79b9_7f4a_7c15);
        let mut mixed = self.state;
        mixed = (mixed ^ (mixed >> 30)).wrapping_mul(0xbf58_476d_1ce4_e5b9);
        mixed = (mixed ^ (mixed >> 27)).wrapping_mul(0x94d0_49bb_1331_11eb);
        mixed ^ (mixed >> 31)
    }

    pub fn byte(&mut self) -> u8 {
        (self.number() % 256) as u8
    }

    /// A number below this one; 0 below none.
    pub fn below(&mut self, count: usize) -> usize
        ensures { result ≤ count }
    {
        if count == 0 {
            return 0;
        }
        (self.number() % count as u64) as usize
    }

    /// One of these.
    pub fn one_of<T: Copy>(&mut self, items: &[T]) -> Option<T> {
        let place = self.below(items.len());
        items.get(place).copied()
    }
}
