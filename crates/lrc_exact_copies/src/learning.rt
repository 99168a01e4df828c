// What a node learns at once.

ghost use Rattle.std.specs.Prelude.{◌≡◌, ◌<◌, ◌≤◌, ℕ, OnOk, length};
ghost use Rattle.lrc_time.specs.Time.{entry, joined};
ghost use Rattle.lrc_exact.specs.Rule.{Knowledge, Shape, State, with_learned};
ghost use Rattle.lrc_exact_copies.specs.Copies.{CopyOf};
ghost use Rattle.lrc_exact_copies.specs.Learned.{with_row};
ghost use Rattle.lrc_exact_copies.specs.Made.{AreAmong, in_row, row_of};

use crate::copy::NodeCopy;
use crate::made::Made;
use lrc_time::Time;
use std::alloc::AllocError;

// The node learns the intervals of a node above the first index, up to the last.
fn learn_row(
    copy: &mut NodeCopy,
    row: &[Made],
    from: u8,
    first: u32,
    last: u32,
    size: u32,
    now: usize,
) -> Result<(), AllocError>
    requires size { 1 ≤ size }
    requires there { last ≤ length row.now }
    ensures { OnOk result ((shape : Shape) (node a : ℕ) (state : State) → a < now
        → shape.size ≡ size → CopyOf shape node a now copy.old state
        → CopyOf shape node a now copy.new (with_row from (in_row row.now) first last state)) }
{
    for index in first..last {
        copy.learn(&row[index as usize], from, size, now)?;
    }
    Ok(())
}

/// The node learns all that is known at a time, of its own intervals no more than it knows.
pub fn learn_all(
    copy: &mut NodeCopy,
    made: &[Vec<Made>],
    time: &Time,
    size: u32,
    now: usize,
) -> Result<(), AllocError>
    requires size { 1 ≤ size }
    requires long { length copy.old.time ≡ length time.now }
    requires rows { length made.now ≡ length time.now }
    requires there { (node : ℕ) → entry time.now node ≤ length (row_of made.now node) }
    ensures time { OnOk result (copy.new.time ≡ joined copy.old.time time.now) }
    ensures copy { OnOk result ((shape : Shape) (node a : ℕ) (state : State) (news : Knowledge)
        → a < now → shape.size ≡ size → news.time ≡ time.now → AreAmong made.now news
        → entry time.now node ≤ entry copy.old.time node → CopyOf shape node a now copy.old state
        → CopyOf shape node a now copy.new (with_learned (length time.now) news state)) }
{
    let mut known = copy.time.copy();
    for node in 0..time.nodes() {
        let row = made[usize::from(node)].as_slice();
        learn_row(copy, row, node, known.at(node), time.at(node), size, now)?;
    }
    known.join(time);
    copy.time = known;
    Ok(())
}
