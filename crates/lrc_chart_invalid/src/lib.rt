//! The pages whose copies become invalid at each turn of a run. The run is replayed, and the copies of a turn's node are
//! looked at before the turn and after it.
#![tactic(auto)]

pub mod copies;
pub mod turns;
