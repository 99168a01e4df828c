// States with what was noted on the way to them.

use lrc_exec::state::State;
use lrc_trace::act::Act;

/// A state, and what was noted on the way to it.
#[derive(PartialEq, Eq, Hash, Drop)]
pub struct Noted {
    pub state: State,
    pub notes: Vec<Act>,
}
