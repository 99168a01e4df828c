// Random numbers.

ghost use Rattle.std.specs.Prelude.{◌≡◌};
ghost use Rattle.lrc_world.specs.Random.{next_state, drawn_number};

/// The random number generator SplitMix64.
#[derive(Drop)]
pub(crate) struct Random {
    state: u64,
}

impl Random {
    /// Creates the generator in this state.
    pub(crate) fn new(seed: u64) -> Random
        ensures { result.state ≡ seed }
    {
        Random { state: seed }
    }

    /// Returns the next number.
    pub(crate) fn next(&mut self) -> u64
        ensures state { self.new.state ≡ next_state self.old.state }
        ensures number { result ≡ drawn_number self.new.state }
    {
        self.state = self.state.wrapping_add(0x9e37_79b9_7f4a_7c15);
        let mut z = self.state;
        z = (z ^ (z >> 30)).wrapping_mul(0xbf58_476d_1ce4_e5b9);
        z = (z ^ (z >> 27)).wrapping_mul(0x94d0_49bb_1331_11eb);
        z ^ (z >> 31)
    }
}
