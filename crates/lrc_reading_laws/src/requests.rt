// What is on its way between the nodes of a run for their pages: requests of changes and of base copies, and the replies. Each
// function is a theorem: its body is empty, and its clauses are the law.

ghost use Rattle.std.specs.Prelude.{◌≡◌, ℕ, ◌+◌, Contains, count_by, if◌then◌else◌, List, map, Some, slice_get, true};
ghost use Rattle.std.specs.List.{list_any};
ghost use Rattle.lrc_program.specs.declared.Program.{Program};
ghost use Rattle.lrc_envelope.specs.Envelope.{EnvelopeRecord};
ghost use Rattle.lrc_envelope.specs.Records.{ChangesRequestRecord, ChangesReplyRecord, IndexedChangesRecord, PageReplyRecord};
ghost use Rattle.lrc_envelope.specs.declared.message.Message.TheVariants.{ChangesRequest, ChangesReply, PageRequest, PageReply};
ghost use Rattle.lrc_protocol.specs.declared.event.Event.{Event};
ghost use Rattle.lrc_protocol.specs.Pages.{Need, due, awaits_changes};
ghost use Rattle.lrc_protocol.specs.Node.{access, needs_of, OptionsRecord};
ghost use Rattle.lrc_protocol.specs.Follows.{is_expected};
ghost use Rattle.lrc_protocol.specs.Run.{Logged, World, run_of};
ghost use Rattle.lrc_protocol.specs.Follows.{pending};
ghost use Rattle.lrc_reading_laws.specs.Requested.{Wish, asks_for, brings, awaits};

/// In every run each thing that a node awaits of another for a page (a base copy of a keeper, or the changes of a
/// maker) is on its way exactly once: as the request or as the reply, but not both. What it does not await is not on
/// its way to it.
pub fn what_is_awaited_is_on_its_way_once()
    ensures { (program : Program) (nodes : ℕ) (options : OptionsRecord) (events : List Event)
        (world : World) (n q : ℕ) (w : Wish) (l : Logged)
        → run_of program nodes options events ≡ Some world → slice_get world.nodes n ≡ Some l
        → count_by (asks_for n q w) (pending world) + count_by (brings n q w) (pending world)
        ≡ (if list_any (awaits q w) (needs_of l.node.mail.wait) then 1 else 0) }
{}

/// In every run requests and replies are on their way only while the asking node waits for them. A base copy is on its
/// way only at a miss on its page, where it is due from the node that is asked. Changes are on their way only while
/// exactly these are awaited of that maker.
pub fn requests_and_replies_are_awaited()
    ensures page_request { (program : Program) (nodes : ℕ) (options : OptionsRecord)
        (events : List Event) (world : World)
        (e : EnvelopeRecord) (page : ℕ) (l : Logged)
        → run_of program nodes options events ≡ Some world
        → Contains (pending world) e → e.message ≡ PageRequest page
        → slice_get world.nodes e.from ≡ Some l
        → (need : Need) × (l.node.mail.wait ≡ access need) × (need.page ≡ page)
        × (need.base ≡ due e.to) }
    ensures page_reply { (program : Program) (nodes : ℕ) (options : OptionsRecord)
        (events : List Event) (world : World)
        (e : EnvelopeRecord) (m : PageReplyRecord) (l : Logged)
        → run_of program nodes options events ≡ Some world
        → Contains (pending world) e → e.message ≡ PageReply m → slice_get world.nodes e.to ≡ Some l
        → (need : Need) × (l.node.mail.wait ≡ access need) × (need.page ≡ m.page)
        × (need.base ≡ due e.from) }
    ensures changes_request { (program : Program) (nodes : ℕ) (options : OptionsRecord)
        (events : List Event) (world : World)
        (e : EnvelopeRecord) (m : ChangesRequestRecord) (l : Logged)
        → run_of program nodes options events ≡ Some world
        → Contains (pending world) e → e.message ≡ ChangesRequest m
        → slice_get world.nodes e.from ≡ Some l
        → list_any (awaits_changes m.page e.to m.indices) (needs_of l.node.mail.wait) ≡ true }
    ensures changes_reply { (program : Program) (nodes : ℕ) (options : OptionsRecord)
        (events : List Event) (world : World)
        (e : EnvelopeRecord) (m : ChangesReplyRecord) (l : Logged)
        → run_of program nodes options events ≡ Some world
        → Contains (pending world) e → e.message ≡ ChangesReply m
        → slice_get world.nodes e.to ≡ Some l
        → list_any (awaits_changes m.page e.from
        (map (λ (part : IndexedChangesRecord). part.index) m.parts)) (needs_of l.node.mail.wait)
        ≡ true }
{}

/// In every run each pending page message would be accepted by its receiver now. A node that is asked for changes
/// stores the intervals and has not collected them. A node that is asked for a base copy is another node and keeps one.
/// What comes in a reply is awaited and in range.
pub fn messages_for_pages_are_accepted()
    ensures changes_request { (program : Program) (nodes : ℕ) (options : OptionsRecord)
        (events : List Event) (world : World)
        (e : EnvelopeRecord) (m : ChangesRequestRecord) (l : Logged)
        → run_of program nodes options events ≡ Some world
        → Contains (pending world) e → e.message ≡ ChangesRequest m
        → slice_get world.nodes e.to ≡ Some l
        → is_expected l.node e.from (ChangesRequest m) ≡ true }
    ensures changes_reply { (program : Program) (nodes : ℕ) (options : OptionsRecord)
        (events : List Event) (world : World)
        (e : EnvelopeRecord) (m : ChangesReplyRecord) (l : Logged)
        → run_of program nodes options events ≡ Some world
        → Contains (pending world) e → e.message ≡ ChangesReply m
        → slice_get world.nodes e.to ≡ Some l
        → is_expected l.node e.from (ChangesReply m) ≡ true }
    ensures page_request { (program : Program) (nodes : ℕ) (options : OptionsRecord)
        (events : List Event) (world : World)
        (e : EnvelopeRecord) (page : ℕ) (l : Logged)
        → run_of program nodes options events ≡ Some world
        → Contains (pending world) e → e.message ≡ PageRequest page
        → slice_get world.nodes e.to ≡ Some l
        → is_expected l.node e.from (PageRequest page) ≡ true }
    ensures page_reply { (program : Program) (nodes : ℕ) (options : OptionsRecord)
        (events : List Event) (world : World)
        (e : EnvelopeRecord) (m : PageReplyRecord) (l : Logged)
        → run_of program nodes options events ≡ Some world
        → Contains (pending world) e → e.message ≡ PageReply m → slice_get world.nodes e.to ≡ Some l
        → is_expected l.node e.from (PageReply m) ≡ true }
{}
