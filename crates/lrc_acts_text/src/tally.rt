// How often each node did something.

ghost use Rattle.std.specs.Prelude.{◌≡◌, ◌<◌, replicate, slice_index};
ghost use Rattle.lrc_acts_text.specs.Tally.{tallied};

/// A count of the acts of one kind, for each node.
#[derive(Drop)]
pub(crate) struct Tally {
    counts: [u64; 256],
}

impl Tally {
    /// Returns a tally that counts no act.
    pub(crate) fn new() -> Tally
        ensures { result.counts ≡ replicate 256 0 }
    {
        Tally { counts: [0; 256] }
    }

    /// Returns how many acts of the node were counted.
    pub(crate) fn of(&self, node: u8) -> u64
        ensures value { result ≡ slice_index self.now.counts node }
        ensures in_range { node < 256 }
    {
        self.counts[usize::from(node)]
    }

    /// Counts an act of the node if `is_counted` is true.
    pub(crate) fn note(&mut self, node: u8, is_counted: bool)
        requires { slice_index self.old.counts node < 18446744073709551615 }
        ensures { self.new.counts ≡ tallied self.old.counts node is_counted }
    {
        if is_counted {
            self.counts[usize::from(node)] += 1;
        }
    }
}
