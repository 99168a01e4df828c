//! A reader of the lines of a trace. A line has the form `THREAD|OP(TARGET)` or `THREAD|OP(TARGET)|LOCATION`; a line
//! that is read gives the names as they are on it, and a line that has no such form the reason. A table numbers the
//! names.
#![tactic(auto)]

pub mod cause;
pub mod line;
pub mod reading;
pub mod table;
