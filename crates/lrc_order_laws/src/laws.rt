// What holds of every run, whatever its events. Each function is a theorem: its body is empty, and its clauses are the law.

ghost use Rattle.std.specs.Prelude.{◌≡◌, ◌⊎◌, ℕ, ◌+◌, ◌<◌, ◌≤◌, true, false, Contains, List, Some, [], length, map};
ghost use Rattle.std.specs.Prelude.{slice_get, slice_index, slice_index_or};
ghost use Rattle.lrc_program.specs.declared.Program.{Program};
ghost use Rattle.lrc_protocol.specs.declared.event.Event.{Event};
ghost use Rattle.lrc_protocol.specs.Node.{OptionsRecord, nothing, grant, was_taken};
ghost use Rattle.lrc_protocol.specs.Run.{Logged, World, Flying, run_of};
ghost use Rattle.lrc_exec.specs.Plain.{setting_of};
ghost use Rattle.lrc_order_laws.specs.Shape.{HasShape};
ghost use Rattle.lrc_time.specs.Time.{entry};
ghost use Rattle.lrc_exec.specs.Follows.{deeds_of};
ghost use Rattle.lrc_order_laws.specs.Counts.{closes, is_arrive, is_depart, count, awaits_acquire, is_inside};
ghost use Rattle.lrc_exec.specs.Meaning.{Thread, releases};
ghost use Rattle.lrc_lock.specs.declared.state.LockState.TheVariants.{Away};
ghost use Rattle.lrc_lock.specs.Held.{lock_at, is_free, is_held};
ghost use Rattle.lrc_order_laws.specs.Tokens.{HoldsTokens, AwaitsOne};
ghost use Rattle.lrc_lock.specs.Held.{is_awaited};
ghost use Rattle.lrc_order_laws.specs.Present.{IsPresent};
ghost use Rattle.lrc_clock.specs.Times.{time_at, time_before};
ghost use Rattle.lrc_order_laws.specs.Numbers.{numbers_between, Rises, Below};
ghost use Rattle.lrc_trace.specs.declared.act.Deed.{Deed};
ghost use Rattle.lrc_trace.specs.Run.{Does};
ghost use Rattle.lrc_order_laws.specs.Rules.{FollowsRule};
ghost use Rattle.lrc_order_laws.specs.Waiting.{acquiring, FixesNext};
ghost use Rattle.lrc_protocol.specs.Node.{next_in};

/// In every run each node keeps its setting and its options. Its time, its tokens and the askers that it notes have a
/// place for each node or lock.
pub fn nodes_keep_their_shape()
    ensures setting { (program : Program) (nodes : ℕ) (options : OptionsRecord)
        (events : List Event) (world : World)
        (n : ℕ) (l : Logged) → run_of program nodes options events ≡ Some world
        → slice_get world.nodes n ≡ Some l
        → (l.node.setting ≡ setting_of program nodes n) × (l.node.options ≡ options) }
    ensures shape { (program : Program) (nodes : ℕ) (options : OptionsRecord) (events : List Event)
        (world : World)
        (n : ℕ) (l : Logged) → run_of program nodes options events ≡ Some world
        → slice_get world.nodes n ≡ Some l
        → HasShape (setting_of program nodes n) l.node.locks }
{}

/// In every run what a node waits for fixes what its text does next. A node that waits for a lock's grant acquires that
/// lock; a node that waits at a miss makes an access; a node inside a barrier departs.
pub fn waiting_fixes_the_next_act()
    ensures { (program : Program) (nodes : ℕ) (options : OptionsRecord) (events : List Event)
        (world : World)
        (n : ℕ) (l : Logged) → run_of program nodes options events ≡ Some world
        → slice_get world.nodes n ≡ Some l
        → FixesNext l.node.mail.wait (next_in l.node.course) }
{}

/// In every run a node's own entry in its time is the number of its acts that close an interval, plus one exactly while
/// it waits for a grant: the interval is closed when the node asks for the lock, but the acquire comes with the grant.
pub fn own_entry_counts_closes()
    ensures { (program : Program) (nodes : ℕ) (options : OptionsRecord) (events : List Event)
        (world : World)
        (n : ℕ) (l : Logged) → run_of program nodes options events ≡ Some world
        → slice_get world.nodes n ≡ Some l
        → entry l.node.locks.time n
        ≡ count closes (deeds_of n world.acts) + awaits_acquire l.node.mail.wait }
{}

/// In every run a node's episode counts its arrivals at barriers. The node has departed as often, or once less exactly
/// while it is inside a barrier.
pub fn arrives_and_departs_count()
    ensures arrives { (program : Program) (nodes : ℕ) (options : OptionsRecord)
        (events : List Event) (world : World)
        (n : ℕ) (l : Logged) → run_of program nodes options events ≡ Some world
        → slice_get world.nodes n ≡ Some l
        → l.node.barrier.episode ≡ count is_arrive (deeds_of n world.acts) }
    ensures departs { (program : Program) (nodes : ℕ) (options : OptionsRecord)
        (events : List Event) (world : World)
        (n : ℕ) (l : Logged) → run_of program nodes options events ≡ Some world
        → slice_get world.nodes n ≡ Some l
        → count is_arrive (deeds_of n world.acts)
        ≡ count is_depart (deeds_of n world.acts) + is_inside l.node.mail.wait }
{}

/// In every run, while a node's text goes on, the text holds exactly the locks whose tokens the node holds.
pub fn text_holds_what_is_held()
    ensures { (program : Program) (nodes : ℕ) (options : OptionsRecord) (events : List Event)
        (world : World)
        (n : ℕ) (l : Logged) → run_of program nodes options events ≡ Some world
        → slice_get world.nodes n ≡ Some l
        → HoldsTokens l.node.course l.node.locks.held }
{}

/// In every run a node that waits for a lock's grant awaits that lock's token and no other. A node that waits for no
/// grant awaits no token.
pub fn waits_for_one_lock()
    ensures { (program : Program) (nodes : ℕ) (options : OptionsRecord) (events : List Event)
        (world : World)
        (n : ℕ) (l : Logged) → run_of program nodes options events ≡ Some world
        → slice_get world.nodes n ≡ Some l
        → AwaitsOne l.node.mail.wait l.node.locks.held }
{}

/// In every run a node's time is that of its last act, or zeros before its first. While the node waits for a grant, its
/// own entry is that of the last act plus one, for the interval that it has closed. In a collection the node has
/// already learned the barrier's time.
pub fn node_time_is_that_of_its_last_act()
    ensures { (program : Program) (nodes : ℕ) (options : OptionsRecord) (events : List Event)
        (world : World)
        (n : ℕ) (l : Logged) → run_of program nodes options events ≡ Some world
        → slice_get world.nodes n ≡ Some l
        → IsPresent n l.node.mail.wait
        (time_before nodes world.acts world.times n (length world.acts)) l.node.locks.time }
{}

/// In every run the messages in flight from one node to another are in the order of their numbers, and no two have the
/// same number. Each number was sent: it is at least `first`, and below `first` plus the number of messages that the
/// sender has counted.
pub fn messages_in_flight_have_their_own_numbers()
    ensures { (program : Program) (nodes : ℕ) (options : OptionsRecord) (events : List Event)
        (world : World)
        (from to : ℕ) (l : Logged) → run_of program nodes options events ≡ Some world
        → slice_get world.nodes from ≡ Some l
        → to < nodes → Rises options.first (options.first + slice_index l.node.mail.sent to)
        (numbers_between from to (map (λ (flying : Flying). flying.envelope) world.flight)) }
{}

/// In every run each act changes its node's time as its kind requires. A release and an arrive raise the own entry; an
/// acquire raises it and learns some time; a depart learns some time; any other act leaves the time unchanged.
pub fn each_act_follows_its_rule()
    ensures { (program : Program) (nodes : ℕ) (options : OptionsRecord) (events : List Event)
        (world : World)
        (j node : ℕ) (deed : Deed) → run_of program nodes options events ≡ Some world
        → Does world.acts j node deed
        → FollowsRule node (time_before nodes world.acts world.times node j) deed
        (time_at world.times j) }
{}

/// In every run no call on a lock that a text or a grant makes is refused for the lock's state. A node that acquires a
/// lock next does not hold its token; if it waits for nothing and the lock is not free here, the token is away. A node
/// that releases a lock next holds its token. A node that waits for a grant awaits the token.
pub fn locks_are_called_in_turn()
    ensures acquire { (program : Program) (nodes : ℕ) (options : OptionsRecord)
        (events : List Event) (world : World)
        (n : ℕ) (l : Logged) (lock : ℕ) → run_of program nodes options events ≡ Some world
        → slice_get world.nodes n ≡ Some l → acquiring (next_in l.node.course) ≡ Some lock
        → is_held (lock_at l.node.locks.held lock) ≡ false }
    ensures ask { (program : Program) (nodes : ℕ) (options : OptionsRecord) (events : List Event)
        (world : World)
        (n : ℕ) (l : Logged) (lock : ℕ) → run_of program nodes options events ≡ Some world
        → slice_get world.nodes n ≡ Some l → l.node.mail.wait ≡ nothing
        → acquiring (next_in l.node.course) ≡ Some lock
        → is_free (lock_at l.node.locks.held lock) ≡ false → lock_at l.node.locks.held lock ≡ Away }
    ensures release { (program : Program) (nodes : ℕ) (options : OptionsRecord)
        (events : List Event) (world : World)
        (n : ℕ) (l : Logged) (lock : ℕ) (after : Thread)
        → run_of program nodes options events ≡ Some world
        → slice_get world.nodes n ≡ Some l → next_in l.node.course ≡ Some (releases lock after)
        → is_held (lock_at l.node.locks.held lock) ≡ true }
    ensures grant { (program : Program) (nodes : ℕ) (options : OptionsRecord) (events : List Event)
        (world : World)
        (n : ℕ) (l : Logged) (lock : ℕ) → run_of program nodes options events ≡ Some world
        → slice_get world.nodes n ≡ Some l → l.node.mail.wait ≡ grant lock
        → is_awaited (lock_at l.node.locks.held lock) ≡ true }
{}

/// In every run what was taken was sent: the numbers that a node has taken from another are all below the next one that
/// the sender will give. They are in order, each once, and at least `first`.
pub fn messages_taken_were_sent()
    ensures below { (program : Program) (nodes : ℕ) (options : OptionsRecord) (events : List Event)
        (world : World)
        (from to : ℕ) (sender receiver : Logged) → run_of program nodes options events ≡ Some world
        → slice_get world.nodes from ≡ Some sender → slice_get world.nodes to ≡ Some receiver
        → Below (options.first + slice_index sender.node.mail.sent to)
        (slice_index_or receiver.node.mail.taken from []) }
    ensures once { (program : Program) (nodes : ℕ) (options : OptionsRecord) (events : List Event)
        (world : World)
        (from to : ℕ) (sender receiver : Logged) → run_of program nodes options events ≡ Some world
        → slice_get world.nodes from ≡ Some sender → slice_get world.nodes to ≡ Some receiver
        → Rises options.first (options.first + slice_index sender.node.mail.sent to)
        (slice_index_or receiver.node.mail.taken from []) }
{}

/// In every run no message is lost: each number from `first` on that a node has given to a message for another node is
/// that of a message in flight between them, or was taken.
pub fn messages_sent_are_in_flight_or_taken()
    ensures { (program : Program) (nodes : ℕ) (options : OptionsRecord) (events : List Event)
        (world : World)
        (from to number : ℕ) (sender receiver : Logged)
        → run_of program nodes options events ≡ Some world
        → slice_get world.nodes from ≡ Some sender → slice_get world.nodes to ≡ Some receiver
        → options.first ≤ number → number < options.first + slice_index sender.node.mail.sent to
        → Contains (numbers_between from to
        (map (λ (flying : Flying). flying.envelope) world.flight)) number
        ⊎ (was_taken receiver.node.mail from number ≡ true) }
{}
