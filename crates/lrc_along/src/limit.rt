// How many events lead along an order.

/// The most events along an order, and the most behind them.
pub const MOST_EVENTS: usize = 100_000_000;
