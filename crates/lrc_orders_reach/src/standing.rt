// Where a thread may stand.

use lrc_exec::spot::Spot;
use lrc_ranges::range::Range;

/// A place of the code, and the range of the values that each of the 32 private names may have there.
#[derive(Clone, Copy)]
pub struct Standing {
    pub place: usize,
    pub names: [Range; 32],
}

impl Standing {
    ghost use Rattle.std.specs.Prelude.{◌≡◌, true};
    ghost use Rattle.lrc_exec.specs.Spots.{thread_at};
    ghost use Rattle.lrc_exec.specs.declared.spot.Flat.{Flat as TheFlat};
    ghost use Rattle.lrc_orders_reach.specs.Standing.{Stands, IsPart};

    /// Returns where a node at no barrier stands: at its place, with its values.
    pub fn of(spot: &Spot) -> Standing
        ensures { (flat : TheFlat) → Stands flat spot.now.me result (thread_at flat spot.now) }
    {
        let mut names = [Range::any(); 32];
        for name in 0..32 {
            names[name] = Range::only(spot.privates[name]);
        }
        Standing {
            place: spot.place,
            names,
        }
    }

    /// Returns whether each thread that stands so as the other one says stands so as this one says.
    pub fn covers(&self, other: &Standing) -> bool
        ensures { result ≡ true → IsPart other.now self.now }
    {
        if self.place != other.place {
            return false;
        }
        for name in 0..32 {
            if !self.names[name].covers(other.names[name]) {
                return false;
            }
        }
        true
    }
}
