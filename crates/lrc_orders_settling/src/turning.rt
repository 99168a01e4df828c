// Threads that turn for ever, found by their coming round.

ghost use Rattle.std.specs.Prelude.{◌≡◌, ◌≤◌, length};
ghost use Rattle.lrc_exec.specs.Spots.{thread_at, IsFlat};
ghost use Rattle.lrc_orders_settling.specs.Turning.{is_quiet_ask, IsCourse};

use lrc_exec::machine::Ask;
use lrc_exec::spot::{Flat, Spot};

/// What the quiet acts and prints of a thread lead to.
#[derive(Clone, Copy, Debug, PartialEq, Eq)]
pub enum Course {
    /// Another act comes after them.
    Stops,
    /// They have no end: the thread returns to where it was.
    Turns,
    /// The limit on the acts to look at was reached.
    Open,
}

/// Returns what the quiet acts and prints of a thread at no barrier lead to. It looks at no more than `most` acts. To
/// see that a thread returns to where it was, it compares the thread with an earlier state of it (Brent 1980); it takes
/// a new such state each time that twice as many acts were looked at.
pub fn course_of(flat: &Flat, spot: &Spot, most: u64) -> Course
    requires flat { IsFlat flat.now }
    requires within { spot.now.place ≤ length flat.now.code.now }
    ensures { IsCourse (thread_at flat.now spot.now) most result }
{
    let mut walker = *spot;
    let mut earlier = *spot;
    let mut again = 1;
    for step in 0..most {
        if !is_quiet(flat.ask(&walker)) {
            return Course::Stops;
        }
        flat.answer(&mut walker, 0);
        if walker == earlier {
            return Course::Turns;
        }
        if step >= again {
            earlier = walker;
            again = step.saturating_add(step);
        }
    }
    Course::Open
}

// Whether a quiet act or a print is asked for.
fn is_quiet(ask: Ask) -> bool
    ensures { result ≡ is_quiet_ask ask }
{
    matches!(ask, Ask::Quiet | Ask::Print(_))
}
