//! Tests of traces: their lines, the numbering of their names, the racing pairs reported for them, and the groups and
//! first faults.
#![tactic(auto)]

#[cfg(test)]
mod cases;
#[cfg(test)]
mod faults;
#[cfg(test)]
mod groups;
#[cfg(test)]
mod lines;
#[cfg(test)]
mod numbers;
#[cfg(test)]
mod played;
#[cfg(test)]
mod sessions;
