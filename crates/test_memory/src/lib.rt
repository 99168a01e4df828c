//! Runs that are refused memory. Each test passes with ample memory, and also if any one growth is refused.
//! `tests/refused-memory --tests` refuses each growth in turn.
#![tactic(auto)]

#[cfg(test)]
mod answers;
#[cfg(test)]
mod simulations;
#[cfg(test)]
mod threads;
