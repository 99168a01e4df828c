// Traps among acts.

ghost use Rattle.std.specs.Prelude.{◌≡◌};
ghost use Rattle.lrc_orders.specs.Traps.{has_trap, is_trap};

use lrc_trace::act::{Act, Deed};

/// Returns whether a deed is a trap.
pub fn is_trap(deed: Deed) -> bool
    ensures { result ≡ is_trap deed }
{
    matches!(deed, Deed::Trap(_))
}

/// Returns whether one of the acts is a trap, so that its node has trapped.
pub fn has_trap(acts: &[Act]) -> bool
    ensures { result ≡ has_trap acts.now }
{
    acts.iter().any(|act| is_trap(act.deed))
}
