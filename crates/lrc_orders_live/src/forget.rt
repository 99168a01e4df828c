// States without the values that nothing depends on any more.

ghost use Rattle.std.specs.Prelude.{◌≡◌, ◌<◌, All, length, map};
ghost use Rattle.lrc_exec.specs.Spots.{IsFlat};
ghost use Rattle.lrc_exec.specs.States.{IsStateOf, plain_at};
ghost use Rattle.lrc_orders_settling.specs.Taking.{IsCounted};
ghost use Rattle.lrc_orders_live.specs.Like.{AreLike};
ghost use Rattle.lrc_orders_live.specs.Live.{AreLive, forgot, without_dead};

use lrc_exec::spot::{Flat, Spot};
use lrc_exec::state::State;

/// Sets each private value to 0 on which nothing depends any more. So states that go on alike become equal.
pub fn forget_dead(flat: &Flat, table: &[[bool; 32]], state: &mut State)
    requires flat { IsFlat flat.now }
    requires live { AreLive flat.now.code.now table.now }
    requires state { IsStateOf flat.now state.old }
    requires counted { IsCounted state.old }
    ensures spots { state.new.spots.items ≡ map (forgot table.now) state.old.spots.items }
    ensures state { IsStateOf flat.now state.new }
    ensures counted { IsCounted state.new }
    ensures like { AreLike (plain_at flat.now state.new) (plain_at flat.now state.old) }
{
    let _flat = flat;
    forget_all(table, &mut state.spots);
}

// The same of each of these spots.
fn forget_all(table: &[[bool; 32]], spots: &mut [Spot])
    requires within { All (λ spot. spot.place < length table.now) spots.old }
    ensures { spots.new ≡ map (forgot table.now) spots.old }
{
    for spot in spots.iter_mut() {
        forget_spot(table, spot);
    }
}

/// The same of one spot.
pub fn forget_spot(table: &[[bool; 32]], spot: &mut Spot)
    requires within { spot.old.place < length table.now }
    ensures { spot.new ≡ forgot table.now spot.old }
{
    forget(&table[spot.place], &mut spot.privates);
}

// Sets the values to 0 whose names are not live.
fn forget(live: &[bool; 32], privates: &mut [u64; 32])
    ensures { privates.new ≡ without_dead live.now privates.old }
{
    for name in 0..32 {
        if !live[name] {
            privates[name] = 0;
        }
    }
}
