// Intervals: a node closes its own, and learns those of others, which come as news with a time.

mod close;
mod learn;
pub(crate) mod news;
pub(crate) mod ranges;
