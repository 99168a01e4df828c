// Where to begin a search among entries.
ghost use Rattle.std.specs.Prelude.{◌≡◌, length};
ghost use Rattle.lrc_judge.specs.declared.TheConstants.{NODES};

use crate::NODES;

/// For each node, a guess where in a list of entries those of its lane end that happen before a position. A wrong guess
/// costs time alone.
#[derive(Clone, Copy)]
pub struct Guesses {
    pub beyond: [usize; NODES],
    ghost full: { length beyond ≡ NODES },
}

impl Guesses {
    /// Returns guesses that are beyond every list.
    pub fn none() -> Guesses {
        Guesses {
            beyond: [usize::MAX; NODES],
        }
    }
}
