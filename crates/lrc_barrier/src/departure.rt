// What goes out with the departures.

ghost use Rattle.std.specs.Prelude.{◌≡◌, length};

use lrc_store::Intervals;
use lrc_time::Time;
use std::marker::Model;

/// What the barrier's manager tells one node after all have arrived: whether a collection follows, the join of all
/// arrivals' times, and the intervals that the node's own arrival did not know, ascending by node, then index.
#[derive(Drop)]
pub struct Departure {
    pub to: u8,
    pub episode: u32,
    pub collect: bool,
    pub time: Time,
    pub intervals: Intervals,
}

/// The departures of all nodes, one for each node from node 0 on.
#[derive(Drop)]
pub struct Departures {
    list: Vec<Departure>,
}

impl Model for Departures {
    ghost use Rattle.std.specs.Prelude.{List};
    ghost use Rattle.lrc_barrier.specs.declared.departure.Departure.{Departure};

    ghost Value = { List Departure };

    ghost view = { λ d. d.list.items };
}

impl Departures {
    /// Returns the given departures.
    pub(crate) fn from_vec(list: Vec<Departure>) -> Self
        ensures { result ≡ list.items }
    {
        Departures { list }
    }

    /// Returns the number of departures.
    pub fn len(&self) -> usize
        ensures { result ≡ length self.now }
    {
        self.list.len()
    }

    /// Returns the departures in order.
    pub fn as_slice(&self) -> &[Departure]
        ensures { result.now ≡ self.now }
    {
        self.list.as_slice()
    }

    /// Turns the departures into a vector, in order.
    pub fn into_vec(self) -> Vec<Departure>
        ensures { result.items ≡ self }
    {
        self.list
    }
}
