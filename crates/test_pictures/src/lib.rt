//! Tests of pictures of runs as they are drawn.
#![tactic(auto)]

#[cfg(test)]
mod checks;
#[cfg(test)]
mod drawing;
#[cfg(test)]
mod legend;
#[cfg(test)]
mod long;
#[cfg(test)]
mod lost;
#[cfg(test)]
mod sketching;
