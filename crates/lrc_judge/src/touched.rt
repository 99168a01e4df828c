// Where the nodes have accessed a word last.
ghost use Rattle.std.specs.Prelude.{◌≡◌, ℕ, ◌+◌, ◌^◌, ◌<◌, length, slice_index, slice_set};
ghost use Rattle.lrc_judge.specs.declared.TheConstants.{NODES};

use crate::NODES;

/// For each node, its latest position that accessed a word, and its latest that wrote it, each plus one, or 0 if there
/// is none.
#[derive(Clone, Copy)]
pub struct Touched {
    pub accessed: [usize; NODES],
    pub written: [usize; NODES],
    ghost all_accessed: { length accessed ≡ NODES },
    ghost all_written: { length written ≡ NODES },
}

impl Touched {
    /// Returns the record before any access.
    pub fn none() -> Touched
        ensures accessed { (node : ℕ) → slice_index result.accessed node ≡ 0 }
        ensures written { (node : ℕ) → slice_index result.written node ≡ 0 }
    {
        Touched {
            accessed: [0; NODES],
            written: [0; NODES],
        }
    }

    /// Returns this record, updated for a read by this node at this position.
    pub fn with_read(self, node: usize, position: usize) -> Touched
        requires node { node < NODES }
        requires few { position + 1 < 2 ^ 64 }
        ensures accessed { result.accessed ≡ slice_set self.accessed node (position + 1) }
        ensures written { result.written ≡ self.written }
    {
        let mut accessed = self.accessed;
        accessed[node] = position + 1;
        let written = self.written;
        Touched { accessed, written }
    }

    /// Returns this record, updated for a write by this node at this position.
    pub fn with_write(self, node: usize, position: usize) -> Touched
        requires node { node < NODES }
        requires few { position + 1 < 2 ^ 64 }
        ensures accessed { result.accessed ≡ slice_set self.accessed node (position + 1) }
        ensures written { result.written ≡ slice_set self.written node (position + 1) }
    {
        let mut accessed = self.accessed;
        accessed[node] = position + 1;
        let mut written = self.written;
        written[node] = position + 1;
        Touched { accessed, written }
    }
}
