// What holds of barriers in every run. Each function is a theorem: its body is empty, and its clauses are the law.

ghost use Rattle.std.specs.Prelude.{◌≡◌, ◌≢◌, ℕ, ◌+◌, ◌<◌, true, false, Bool, Contains, count_by, List, Some, None, slice_get, slice_index_or};
ghost use Rattle.lrc_program.specs.declared.Program.{Program};
ghost use Rattle.lrc_barrier.specs.Barrier.{ManagerRecord};
ghost use Rattle.lrc_barrier.specs.declared.arrival.Arrival.{Arrival};
ghost use Rattle.lrc_clock.specs.Times.{time_at, time_before, arrived_time};
ghost use Rattle.lrc_time.specs.Time.{joined, covers};
ghost use Rattle.lrc_trace.specs.declared.act.Deed.TheVariants.{Arrive as ArriveDeed, Depart as DepartDeed};
ghost use Rattle.lrc_envelope.specs.Envelope.{EnvelopeRecord};
ghost use Rattle.lrc_envelope.specs.Records.{ArriveRecord, DepartRecord};
ghost use Rattle.lrc_envelope.specs.declared.message.Message.TheVariants.{Arrive, Depart, Clean, Discard};
ghost use Rattle.lrc_trace.specs.Run.{Does, arrives_before, departs_before};
ghost use Rattle.lrc_protocol.specs.declared.event.Event.{Event};
ghost use Rattle.lrc_protocol.specs.Node.{departure, awaits_departure, OptionsRecord};
ghost use Rattle.lrc_protocol.specs.Follows.{is_expected};
ghost use Rattle.lrc_protocol.specs.Run.{Logged, World, run_of};
ghost use Rattle.lrc_protocol.specs.Follows.{pending};
ghost use Rattle.lrc_order_laws.specs.Barriers.{accepts_arrival, arrive_from, clean_from, discard_to, kept_of, is_collecting, StandsAt, time_in, IsNewestTime};
ghost use Rattle.lrc_order_laws.specs.Counts.{is_inside};

/// In every run node 0 has the barrier manager, and no other node has one. A node has arrived as often as episodes are
/// over, plus once if its arrival is on its way or kept by the manager. While a node waits to depart, exactly one of
/// these holds: its arrival is on its way, its arrival is kept, or its departure is on its way. While it waits for the
/// word to discard, exactly one of these holds: its word that its copies are clean is on its way, that word is noted,
/// or the word to discard is on its way. At all other times none of them holds.
pub fn nodes_stand_at_the_barrier()
    ensures manager { (program : Program) (nodes : ℕ) (options : OptionsRecord)
        (events : List Event) (world : World)
        (first : Logged) → run_of program nodes options events ≡ Some world
        → slice_get world.nodes 0 ≡ Some first
        → (manager : ManagerRecord) × (first.node.barrier.manager ≡ Some manager)
        × ((n : ℕ) (l : Logged) → slice_get world.nodes n ≡ Some l
        → StandsAt (pending world) manager n l.node.mail.wait l.node.barrier.episode) }
    ensures others { (program : Program) (nodes : ℕ) (options : OptionsRecord) (events : List Event)
        (world : World)
        (n : ℕ) (l : Logged) → run_of program nodes options events ≡ Some world
        → slice_get world.nodes n ≡ Some l
        → n ≢ 0 → l.node.barrier.manager ≡ None }
{}

/// In every run no node departs from a barrier before every node has arrived there. At each depart, each node has
/// arrived more often than the departing node has departed.
pub fn departs_follow_all_arrives()
    ensures { (program : Program) (nodes : ℕ) (options : OptionsRecord) (events : List Event)
        (world : World)
        (j node : ℕ) → run_of program nodes options events ≡ Some world
        → Does world.acts j node DepartDeed
        → (other : ℕ) → other < nodes
        → departs_before world.acts node j < arrives_before world.acts other j }
{}

/// In every run the times that go by barriers are right. An Arrive on its way, and an arrival that the manager keeps,
/// has its node's time. A Depart on its way, and a collection that a node is in, has the join of the times at every
/// node's arrive at the newest episode. A node that waits to depart has the time that it had at its newest arrive.
pub fn times_of_barriers_are_right()
    ensures arrives { (program : Program) (nodes : ℕ) (options : OptionsRecord)
        (events : List Event) (world : World)
        (e : EnvelopeRecord) (m : ArriveRecord) (l : Logged)
        → run_of program nodes options events ≡ Some world
        → Contains (pending world) e → e.message ≡ Arrive m → slice_get world.nodes e.from ≡ Some l
        → m.time ≡ l.node.locks.time }
    ensures kept { (program : Program) (nodes : ℕ) (options : OptionsRecord) (events : List Event)
        (world : World)
        (first : Logged) (manager : ManagerRecord) (n : ℕ) (a : Arrival) (l : Logged)
        → run_of program nodes options events ≡ Some world
        → slice_get world.nodes 0 ≡ Some first → first.node.barrier.manager ≡ Some manager
        → slice_index_or manager.arrivals n None ≡ Some a → slice_get world.nodes n ≡ Some l
        → a.time ≡ l.node.locks.time }
    ensures departs { (program : Program) (nodes : ℕ) (options : OptionsRecord)
        (events : List Event) (world : World)
        (first : Logged) (manager : ManagerRecord) (e : EnvelopeRecord) (m : DepartRecord)
        (l : Logged)
        → run_of program nodes options events ≡ Some world
        → slice_get world.nodes 0 ≡ Some first → first.node.barrier.manager ≡ Some manager
        → Contains (pending world) e → e.message ≡ Depart m → slice_get world.nodes e.to ≡ Some l
        → IsNewestTime nodes world.acts world.times manager.done m.time }
    ensures collects { (program : Program) (nodes : ℕ) (options : OptionsRecord)
        (events : List Event) (world : World)
        (first : Logged) (manager : ManagerRecord) (n : ℕ) (l : Logged) (time : List ℕ)
        → run_of program nodes options events ≡ Some world
        → slice_get world.nodes 0 ≡ Some first → first.node.barrier.manager ≡ Some manager
        → slice_get world.nodes n ≡ Some l → time_in l.node.mail.wait ≡ Some time
        → IsNewestTime nodes world.acts world.times manager.done time }
    ensures had { (program : Program) (nodes : ℕ) (options : OptionsRecord) (events : List Event)
        (world : World)
        (n : ℕ) (l : Logged) (k : ℕ) → run_of program nodes options events ≡ Some world
        → slice_get world.nodes n ≡ Some l → l.node.mail.wait ≡ departure
        → Does world.acts k n ArriveDeed
        → arrives_before world.acts n k + 1 ≡ l.node.barrier.episode
        → time_at world.times k ≡ l.node.locks.time }
{}

/// In every run each depart learns what every node knew at its arrive with the number of this depart.
pub fn departs_learn_what_all_arrived_with()
    ensures { (program : Program) (nodes : ℕ) (options : OptionsRecord) (events : List Event)
        (world : World)
        (j node : ℕ) → run_of program nodes options events ≡ Some world
        → Does world.acts j node DepartDeed
        → time_at world.times j ≡ joined (time_before nodes world.acts world.times node j)
        (arrived_time nodes world.acts world.times (departs_before world.acts node j) j) }
{}

/// In every run a collection is exclusive. If none is under way, no Clean is on its way, no node fetches what the pages
/// that it keeps need, and no departure tells a node to collect. While one is under way, every node is inside the
/// barrier, none has arrived anew, and none is told to discard; a node that is told to depart is told to collect.
pub fn collections_are_exclusive()
    ensures none { (program : Program) (nodes : ℕ) (options : OptionsRecord) (events : List Event)
        (world : World)
        (first : Logged) (manager : ManagerRecord) (n : ℕ) (l : Logged)
        → run_of program nodes options events ≡ Some world
        → slice_get world.nodes 0 ≡ Some first → first.node.barrier.manager ≡ Some manager
        → manager.cleans ≡ None
        → slice_get world.nodes n ≡ Some l
        → (count_by (clean_from n) (pending world) ≡ 0) × (is_collecting l.node.mail.wait ≡ 0) }
    ensures none_told { (program : Program) (nodes : ℕ) (options : OptionsRecord)
        (events : List Event) (world : World)
        (first : Logged) (manager : ManagerRecord) (e : EnvelopeRecord) (m : DepartRecord)
        (l : Logged)
        → run_of program nodes options events ≡ Some world
        → slice_get world.nodes 0 ≡ Some first → first.node.barrier.manager ≡ Some manager
        → manager.cleans ≡ None
        → Contains (pending world) e → e.message ≡ Depart m → slice_get world.nodes e.to ≡ Some l
        → m.collect ≡ false }
    ensures one { (program : Program) (nodes : ℕ) (options : OptionsRecord) (events : List Event)
        (world : World)
        (first : Logged) (manager : ManagerRecord) (cleans : List Bool) (n : ℕ) (l : Logged)
        → run_of program nodes options events ≡ Some world
        → slice_get world.nodes 0 ≡ Some first → first.node.barrier.manager ≡ Some manager
        → manager.cleans ≡ Some cleans
        → slice_get world.nodes n ≡ Some l
        → (is_inside l.node.mail.wait ≡ 1)
        × (count_by (arrive_from n) (pending world) + kept_of manager n ≡ 0)
        × (count_by (discard_to n) (pending world) ≡ 0) }
    ensures one_told { (program : Program) (nodes : ℕ) (options : OptionsRecord)
        (events : List Event) (world : World)
        (first : Logged) (manager : ManagerRecord) (cleans : List Bool) (e : EnvelopeRecord)
        (m : DepartRecord) (l : Logged)
        → run_of program nodes options events ≡ Some world
        → slice_get world.nodes 0 ≡ Some first → first.node.barrier.manager ≡ Some manager
        → manager.cleans ≡ Some cleans
        → Contains (pending world) e → e.message ≡ Depart m → slice_get world.nodes e.to ≡ Some l
        → m.collect ≡ true }
{}

/// In every run an Arrive or a Clean on its way goes to node 0, with the episode of its sender. A Depart or a word to
/// discard on its way comes from node 0, with the episode of its receiver.
pub fn barrier_messages_use_node_0()
    ensures arrive { (program : Program) (nodes : ℕ) (options : OptionsRecord) (events : List Event)
        (world : World)
        (e : EnvelopeRecord) (m : ArriveRecord) → run_of program nodes options events ≡ Some world
        → Contains (pending world) e → e.message ≡ Arrive m
        → (e.to ≡ 0) × ((l : Logged) → slice_get world.nodes e.from ≡ Some l
        → m.episode ≡ l.node.barrier.episode) }
    ensures depart { (program : Program) (nodes : ℕ) (options : OptionsRecord) (events : List Event)
        (world : World)
        (e : EnvelopeRecord) (m : DepartRecord) → run_of program nodes options events ≡ Some world
        → Contains (pending world) e → e.message ≡ Depart m
        → (e.from ≡ 0) × ((l : Logged) → slice_get world.nodes e.to ≡ Some l
        → m.episode ≡ l.node.barrier.episode) }
    ensures clean { (program : Program) (nodes : ℕ) (options : OptionsRecord) (events : List Event)
        (world : World)
        (e : EnvelopeRecord) (episode : ℕ) → run_of program nodes options events ≡ Some world
        → Contains (pending world) e → e.message ≡ Clean episode
        → (e.to ≡ 0) × ((l : Logged) → slice_get world.nodes e.from ≡ Some l
        → episode ≡ l.node.barrier.episode) }
    ensures discard { (program : Program) (nodes : ℕ) (options : OptionsRecord)
        (events : List Event) (world : World)
        (e : EnvelopeRecord) (episode : ℕ) → run_of program nodes options events ≡ Some world
        → Contains (pending world) e → e.message ≡ Discard episode
        → (e.from ≡ 0) × ((l : Logged) → slice_get world.nodes e.to ≡ Some l
        → episode ≡ l.node.barrier.episode) }
{}

/// In every run each pending barrier message would be accepted by its receiver now, apart from the intervals that it
/// carries. A Clean and a word to discard carry none: they are expected. The manager accepts an Arrive. A Depart comes
/// from node 0 to a node that awaits its departure from that episode, and covers that node's time.
pub fn barrier_messages_are_accepted()
    ensures clean { (program : Program) (nodes : ℕ) (options : OptionsRecord) (events : List Event)
        (world : World)
        (first l : Logged) (e : EnvelopeRecord) (episode : ℕ)
        → run_of program nodes options events ≡ Some world
        → slice_get world.nodes 0 ≡ Some first → Contains (pending world) e
        → e.message ≡ Clean episode
        → slice_get world.nodes e.from ≡ Some l
        → is_expected first.node e.from (Clean episode) ≡ true }
    ensures discard { (program : Program) (nodes : ℕ) (options : OptionsRecord)
        (events : List Event) (world : World)
        (l : Logged) (e : EnvelopeRecord) (episode : ℕ)
        → run_of program nodes options events ≡ Some world
        → Contains (pending world) e → e.message ≡ Discard episode
        → slice_get world.nodes e.to ≡ Some l → is_expected l.node e.from (Discard episode) ≡ true }
    ensures arrive { (program : Program) (nodes : ℕ) (options : OptionsRecord) (events : List Event)
        (world : World)
        (first l : Logged) (e : EnvelopeRecord) (m : ArriveRecord)
        → run_of program nodes options events ≡ Some world
        → slice_get world.nodes 0 ≡ Some first → Contains (pending world) e → e.message ≡ Arrive m
        → slice_get world.nodes e.from ≡ Some l → accepts_arrival first.node e.from m ≡ true }
    ensures depart { (program : Program) (nodes : ℕ) (options : OptionsRecord) (events : List Event)
        (world : World)
        (l : Logged) (e : EnvelopeRecord) (m : DepartRecord)
        → run_of program nodes options events ≡ Some world
        → Contains (pending world) e → e.message ≡ Depart m → slice_get world.nodes e.to ≡ Some l
        → (e.from ≡ 0) × (awaits_departure l.node.mail.wait ≡ true)
        × (m.episode ≡ l.node.barrier.episode)
        × (covers m.time l.node.locks.time ≡ true) }
{}
