// How many turns each node made.

ghost use Rattle.std.specs.Prelude.{◌≡◌, ◌+◌, ◌<◌, replicate, slice_index, slice_set};

/// A count of turns for each node.
#[derive(Drop)]
pub(crate) struct Made {
    counts: [usize; 256],
}

impl Made {
    /// Returns counts of 0 for all nodes.
    pub(crate) fn new() -> Made
        ensures { result.counts ≡ replicate 256 0 }
    {
        Made { counts: [0; 256] }
    }

    /// Returns the number of turns that the node has made.
    pub(crate) fn by(&self, node: u8) -> usize
        ensures made { result ≡ slice_index self.now.counts node }
        ensures in_range { node < 256 }
    {
        self.counts[usize::from(node)]
    }

    /// Adds one turn to the node's count.
    pub(crate) fn note(&mut self, node: u8)
        requires { slice_index self.old.counts node < 18446744073709551615 }
        ensures { self.new.counts ≡ slice_set self.old.counts node
            (slice_index self.old.counts node + 1) }
    {
        self.counts[usize::from(node)] += 1;
    }
}
