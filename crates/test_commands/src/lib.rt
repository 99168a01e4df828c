//! Tests of the command line and its outputs: the choices that words make, writers that refuse, and faults. They also
//! cover what no file of `tests/rows` can show: texts too large for a file, and runs on threads that are replayed.
#![tactic(auto)]

#[cfg(test)]
mod arguments;
#[cfg(test)]
mod checks;
#[cfg(test)]
mod faults;
#[cfg(test)]
mod large;
#[cfg(test)]
mod long_programs;
#[cfg(test)]
mod progress;
#[cfg(test)]
mod refused;
#[cfg(test)]
mod searches;
#[cfg(test)]
mod shell;
#[cfg(test)]
mod stepped;
#[cfg(test)]
mod threads;
#[cfg(test)]
mod traces;
#[cfg(test)]
mod words;
#[cfg(test)]
mod writers;
