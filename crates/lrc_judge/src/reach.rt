// Which acts some acts are reached by.
ghost use Rattle.std.specs.Prelude.{◌≡◌, ℕ, ◌<◌, length, max, slice_index};
ghost use Rattle.lrc_judge.specs.declared.TheConstants.{NODES};

use crate::NODES;

/// The reach of a set of positions: for each node, its latest position that is in the set or happens before a position
/// in it, plus one, or 0 if there is none.
#[derive(Clone, Copy)]
pub struct Reach {
    pub latest: [usize; NODES],
    ghost full: { length latest ≡ NODES },
}

impl Reach {
    /// Returns the empty reach.
    pub fn none() -> Reach
        ensures { (node : ℕ) → slice_index result.latest node ≡ 0 }
    {
        Reach { latest: [0; NODES] }
    }

    /// Returns the reach of both sets together.
    pub fn joined(self, other: Reach) -> Reach
        ensures { (node : ℕ) → slice_index result.latest node
            ≡ max (slice_index self.latest node) (slice_index other.latest node) }
    {
        let mut latest = self.latest;
        for node in 0..NODES {
            latest[node] = latest[node].max(other.latest[node]);
        }
        Reach { latest }
    }
}

/// The reach of an act, and its node.
#[derive(Clone, Copy)]
pub struct Reached {
    pub node: u8,
    pub reach: Reach,
    ghost in_range: { node < NODES },
}
