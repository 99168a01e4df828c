//! Notes on the lines of a trace: a byte order mark that is part of a name, and a blank that is part of a location. They
//! stand as the trace has them, but are seldom meant.
#![tactic(auto)]

pub mod noter;
pub mod noting;
mod signs;
pub mod text;
