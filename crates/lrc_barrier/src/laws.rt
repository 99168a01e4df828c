// What always holds of barriers. Each function is a law: its clauses are the statement, and there is nothing to do.

ghost use Rattle.std.specs.Prelude.{◌≡◌, ◌≢◌, ◌↔◌, ◌⊎◌, ℕ, ◌+◌, ◌^◌, ◌<◌, ◌≤◌, Bool, IsTrue, IsFalse, List, All, Contains, Some, None, length, slice_index_or};
ghost use Rattle.lrc_time.specs.Time.{entry, Covers};
ghost use Rattle.lrc_store.specs.Interval.{IntervalRecord, index_of};
ghost use Rattle.lrc_barrier.specs.declared.arrival.Arrival.{Arrival};
ghost use Rattle.lrc_barrier.specs.declared.departure.Departure.{Departure};
ghost use Rattle.lrc_barrier.specs.declared.fault.BarrierFault.TheVariants.{WrongEpisode};
ghost use Rattle.lrc_barrier.specs.Barrier.{ManagerRecord, ArriveStep, arrived, asks, cleaned, departed, departs, departure_to, departures_of};
ghost use Rattle.lrc_barrier.specs.Barrier.{discards, has_arrived, is_next, joined_time, refuses, waits, with_arrival};

/// A node's departure has exactly those of the arrivals' intervals that the time of its own arrival did not know.
pub fn a_departure_has_what_its_arrival_lacks()
    ensures { (arrivals : List Arrival) (to : ℕ) (own : Arrival) (interval : IntervalRecord)
        → Contains (departure_to arrivals (to, own)).intervals interval
        ↔ (((arrival : Arrival) × Contains arrivals arrival × Contains arrival.intervals interval)
        × (entry own.time interval.node < index_of interval)) }
{}

/// The time of the departures is the least cover of the arrivals' times: it covers each of them, and every time that
/// covers them all covers it.
pub fn the_time_of_all_is_the_least_cover()
    ensures covers { (nodes : ℕ) (arrivals : List Arrival) (arrival : Arrival)
        → Contains arrivals arrival → Covers (joined_time nodes arrivals) arrival.time }
    ensures least { (nodes : ℕ) (arrivals : List Arrival) (time : List ℕ)
        → All (λ arrival. Covers time arrival.time) arrivals
        → Covers time (joined_time nodes arrivals) }
{}

/// There is one departure for each arrival, in the order of the nodes.
pub fn every_node_departs()
    ensures count { (arrivals : List Arrival) → length (departures_of arrivals) ≡ length arrivals }
    ensures order { (arrivals : List Arrival) (node : ℕ) (none : Departure) (nobody : Arrival)
        → node < length arrivals
        → slice_index_or (departures_of arrivals) node none
        ≡ departure_to arrivals (node, slice_index_or arrivals node nobody) }
{}

/// A departure announces a collection exactly if some arrival asked for it.
pub fn a_collection_is_asked_for()
    ensures { (arrivals : List Arrival)
        → IsTrue (asks arrivals) ↔
        ((arrival : Arrival) × Contains arrivals arrival × IsTrue arrival.ask) }
{}

/// Let a node arrive that has not arrived at the next episode yet, while no collection is under way. All nodes depart
/// exactly if every other node has arrived.
pub fn all_depart_with_the_last_arrival()
    ensures last { (manager : ManagerRecord) (from : ℕ) (arrival : Arrival)
        → from < length manager.arrivals
        → IsTrue (is_next manager arrival.episode) → IsFalse (has_arrived manager from)
        → ((node : ℕ) → node < length manager.arrivals → node ≢ from
        → IsTrue (has_arrived manager node))
        → (departures : List Departure)
        × (arrived manager from arrival
        ≡ departs departures (departed (with_arrival manager from arrival))) }
    ensures earlier { (manager : ManagerRecord) (from other : ℕ) (arrival : Arrival)
        → from < length manager.arrivals
        → IsTrue (is_next manager arrival.episode) → IsFalse (has_arrived manager from)
        → other < length manager.arrivals → other ≢ from → IsFalse (has_arrived manager other)
        → arrived manager from arrival ≡ waits (with_arrival manager from arrival) }
{}

/// While a collection is under way, every arrival is refused with `WrongEpisode`.
pub fn a_collection_keeps_arrivals_out()
    ensures { (manager : ManagerRecord) (from : ℕ) (arrival : Arrival) (cleans : List Bool)
        → manager.cleans ≡ Some cleans → arrived manager from arrival ≡ refuses WrongEpisode }
{}

/// After 4,294,967,295 episodes there is no next one, because its number would not fit.
pub fn the_last_episode_has_no_next()
    ensures { (manager : ManagerRecord) (episode : ℕ) → manager.done + 1 ≡ 2 ^ 32 → episode < 2 ^ 32
        → IsFalse (is_next manager episode) }
{}

/// The Clean that ends a collection is for the last episode that is over, and no collection is under way after it.
pub fn a_collection_ends_once()
    ensures { (manager next : ManagerRecord) (from episode over : ℕ)
        → cleaned manager from episode ≡ discards over next
        → (over ≡ manager.done) × (over ≡ episode) × (next.done ≡ manager.done)
        × (next.cleans ≡ None) }
{}
