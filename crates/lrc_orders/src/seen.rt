// What is seen at a state of the plain machine.

ghost use Rattle.std.specs.Prelude.{◌↔◌, IsTrue};
ghost use Rattle.lrc_exec.specs.Spots.{IsFlat};
ghost use Rattle.lrc_exec.specs.States.{plain_at, IsStateOf};
ghost use Rattle.lrc_orders.specs.Stuck.{IsAtRest};

use lrc_exec::spot::Flat;
use lrc_exec::state::State;

/// Returns whether no node can make an act.
pub fn is_still(flat: &Flat, state: &State) -> bool
    requires flat { IsFlat flat.now }
    requires state { IsStateOf flat.now state.now }
    ensures { IsTrue result ↔ IsAtRest (plain_at flat.now state.now) }
{
    for node in 0..state.spots.len() {
        if state.next_deed(flat, node).is_some() {
            return false;
        }
    }
    true
}
