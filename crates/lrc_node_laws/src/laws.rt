// What holds of each node that is reached. Each function is a theorem: its body is empty, and its clauses are the law.

ghost use Rattle.std.specs.List.{range_with_len};
ghost use Rattle.std.specs.Prelude.{◌≡◌, ℕ, ◌<◌, Some, List, [], ◌∷◌, ◌++◌, length, true, false, ◌+◌, All, ◌≤◌, ◌==◌, AllPairs, map, None, is_some, is_none};
ghost use Rattle.lrc_exec.specs.Meaning.{Thread, releases};
ghost use Rattle.lrc_exec.specs.Plain.{setting_of};
ghost use Rattle.lrc_order_laws.specs.Counts.{is_inside};
ghost use Rattle.lrc_order_laws.specs.Shape.{HasShape};
ghost use Rattle.lrc_lock.specs.Held.{is_awaited};
ghost use Rattle.lrc_order_laws.specs.Waiting.{acquiring, FixesNext};
ghost use Rattle.lrc_protocol.specs.Node.{next_in};
ghost use Rattle.lrc_program.specs.declared.Program.{Program};
ghost use Rattle.lrc_node_laws.specs.Comes.{CanBeRepaired};
ghost use Rattle.lrc_protocol.specs.Turn.{with_needs, is_learnable, expects_changes_reply, TurnRecord, done};
ghost use Rattle.lrc_protocol.specs.Follows.{is_expected};
ghost use Rattle.lrc_protocol.specs.Turn.{run_turn, take_turn};
ghost use Rattle.lrc_envelope.specs.declared.message.Message.TheVariants.{PageReply};
ghost use Rattle.lrc_node_laws.specs.Needs.{FitsNeed, FitsKept, ReachesFor};
ghost use Rattle.lrc_node_laws.specs.Opened.{AreMadeBy, open_in, open_writes};
ghost use Rattle.lrc_protocol.specs.Follows.{deeds_in};
ghost use Rattle.lrc_node_laws.specs.Own.{OwnAttached, OwnCopied};
ghost use Rattle.lrc_node_laws.specs.Ranges.{InRange, HasRanges, CollectsAt, HasManager, IsWholeCopy, IsWholeBase};
ghost use Rattle.lrc_node_laws.specs.Reached.{IsReached, LeadsTo};
ghost use Rattle.lrc_node_laws.specs.Remembered.{IsBetween};
ghost use Rattle.lrc_node_laws.specs.Sized.{IsSized};
ghost use Rattle.lrc_node_laws.specs.Stored.{StoresExactly};
ghost use Rattle.lrc_node_laws.specs.Traced.{IsTraced, CanNoteAct};
ghost use Rattle.lrc_node_laws.specs.Waits.{IsQuiet};
ghost use Rattle.lrc_lock.specs.Held.{lock_at, is_free, is_held};
ghost use Rattle.lrc_lock.specs.declared.state.LockState.TheVariants.{Away};
ghost use Rattle.lrc_page.specs.Page.{words_of};
ghost use Rattle.lrc_page.specs.Place.{pages_of};
ghost use Rattle.lrc_page.specs.declared.changes.Change.{Change};
ghost use Rattle.lrc_protocol.specs.Times.{indices_by, next_time};
ghost use Rattle.lrc_protocol.specs.Pages.{Need, Asked, is_met, changes_came, page_came, missing_at, copy_at};
ghost use Rattle.lrc_protocol.specs.Node.{going, nothing, grant, needs_of, access, Node, OptionsRecord, fresh_node};
ghost use Rattle.lrc_protocol.specs.Run.{Input, outcome_of};
ghost use Rattle.lrc_protocol.specs.Follows.{Local};
ghost use Rattle.lrc_protocol.specs.Traced.{untraced, with_act};
ghost use Rattle.lrc_trace.specs.Trace.{TraceRecord};
ghost use Rattle.lrc_store.specs.Interval.{IntervalRecord};
ghost use Rattle.lrc_store.specs.Store.{IsStore, notice_at, unread, changes_at};
ghost use Rattle.lrc_store.specs.declared.key.Key.{Key};
ghost use Rattle.lrc_time.specs.Time.{entry};
ghost use Rattle.lrc_envelope.specs.Envelope.{EnvelopeRecord};
ghost use Rattle.lrc_envelope.specs.Records.{IndexedChangesRecord, ChangesReplyRecord, PageReplyRecord};

/// A fresh node is reached, and each turn of a reached node gives a reached node.
pub fn turns_lead_on()
    ensures fresh { (program : Program) (nodes : ℕ) (options : OptionsRecord) (me : ℕ) → me < nodes
        → IsReached (fresh_node program nodes options me) }
    ensures run { (node after : Node) (turn : TurnRecord) → IsReached node
        → run_turn node ≡ done turn after → IsReached after }
    ensures take { (node after : Node) (turn : TurnRecord) (envelope : EnvelopeRecord)
        → IsReached node
        → take_turn node envelope ≡ done turn after → IsReached after }
    ensures with_turns { (program : Program) (nodes : ℕ) (options : OptionsRecord) (me : ℕ)
        (l : Local) (input : Input)
        (turn : TurnRecord) (after : Node) → LeadsTo program nodes options me l
        → outcome_of l.node input ≡ done turn after
        → LeadsTo program nodes options me (record { node = after; turns = l.turns ++ turn ∷ [] }) }
{}

/// A reached node has the setting of its program on one of the nodes, and its options.
pub fn setting_and_options_stay()
    ensures { (program : Program) (nodes : ℕ) (options : OptionsRecord) (me : ℕ) (l : Local)
        → LeadsTo program nodes options me l
        → (l.node.setting ≡ setting_of program nodes me) × (l.node.options ≡ options) }
{}

/// At a reached node each call on a token comes in turn. A lock that the text acquires next has a place here and is not
/// held; if it is not free and the node waits for nothing, its token is neither here nor awaited. A lock that the text
/// releases next is held. A lock whose grant the node waits for is awaited. What the node waits for fixes what its text
/// does next.
pub fn tokens_are_called_in_turn()
    ensures shape { (node : Node) → IsReached node → HasShape node.setting node.locks }
    ensures acquire { (node : Node) (lock : ℕ) → IsReached node
        → acquiring (next_in node.course) ≡ Some lock
        → (lock < length node.locks.held.locks) × (is_held (lock_at node.locks.held lock) ≡ false) }
    ensures ask { (node : Node) (lock : ℕ) → IsReached node → node.mail.wait ≡ nothing
        → acquiring (next_in node.course) ≡ Some lock
        → is_free (lock_at node.locks.held lock) ≡ false → lock_at node.locks.held lock ≡ Away }
    ensures release { (node : Node) (lock : ℕ) (after : Thread) → IsReached node
        → next_in node.course ≡ Some (releases lock after)
        → (lock < length node.locks.held.locks) × (is_held (lock_at node.locks.held lock) ≡ true) }
    ensures grant { (node : Node) (lock : ℕ) → IsReached node → node.mail.wait ≡ grant lock
        → (lock < length node.locks.held.locks)
        × (is_awaited (lock_at node.locks.held lock) ≡ true) }
    ensures waits { (node : Node) → IsReached node
        → FixesNext node.mail.wait (next_in node.course) }
{}

/// A reached node is one of the nodes, its time has an entry for each node, and its memory has a place for each page.
/// The time of a collection under way is the node's own.
pub fn memory_has_its_ranges()
    ensures me { (node : Node) → IsReached node → node.setting.me < node.setting.nodes }
    ensures time { (node : Node) → IsReached node → length node.locks.time ≡ node.setting.nodes }
    ensures memory { (node : Node) → IsReached node
        → HasRanges node.setting.nodes (pages_of node.setting.words node.options.size) node.memory }
    ensures collection { (node : Node) → IsReached node
        → CollectsAt node.locks.time node.mail.wait }
{}

/// A reached node stores exactly the intervals above its collected time and up to its time, those of each node in
/// rising order. The greatest index ever added of each node is that node's entry of the time. So the interval that the
/// node closes next, and the news that it can learn, can be added one after another.
pub fn intervals_are_stored_exactly()
    ensures exact { (node : Node) → IsReached node → StoresExactly node.locks.time node.memory }
    ensures store { (node : Node) → IsReached node → IsStore node.memory.store }
    ensures own { (node : Node) → IsReached node
        → (length (next_time node.setting.me node.locks.time) ≡ length node.memory.store.last)
        × (entry (next_time node.setting.me node.locks.time) node.setting.me
        ≡ entry node.memory.store.last node.setting.me + 1) }
    ensures news { (node : Node) (time : List ℕ) (intervals : List IntervalRecord) → IsReached node
        → is_learnable node time intervals ≡ true
        → All (InRange node.setting.nodes (pages_of node.setting.words node.options.size)) intervals
        × ((q : ℕ) → indices_by intervals q
        ≡ range_with_len (entry node.memory.store.last q + 1)
        (length (indices_by intervals q))) }
{}

/// A reached node counts messages for each node, and has the barrier manager exactly if it is node 0. It has arrived at
/// most as often as it has closed intervals, and at least once if it is inside a barrier.
pub fn mail_and_barriers_fit()
    ensures sent { (node : Node) → IsReached node → length node.mail.sent ≡ node.setting.nodes }
    ensures taken { (node : Node) → IsReached node → length node.mail.taken ≡ node.setting.nodes }
    ensures manager { (node : Node) → IsReached node
        → HasManager node.setting.me node.setting.nodes node.barrier.manager }
    ensures episode { (node : Node) → IsReached node
        → node.barrier.episode ≤ entry node.locks.time node.setting.me }
    ensures inside { (node : Node) → IsReached node
        → is_inside node.mail.wait ≤ node.barrier.episode }
{}

/// The text of a reached node has the node's setting. It has arrived at a barrier exactly while the node is inside one.
pub fn texts_fit()
    ensures setting { (node : Node) (thread : Thread) → IsReached node → node.course ≡ going thread
        → (thread.setting ≡ node.setting) × (length thread.held ≡ 64) }
    ensures arrived { (node : Node) (thread : Thread) → IsReached node → node.course ≡ going thread
        → thread.arrived ≡ (is_inside node.mail.wait == 1) }
{}

/// A reached node that waits for a grant or is inside a barrier has no page that is written in its open interval.
pub fn waiting_node_has_no_written_page()
    ensures { (node : Node) → IsReached node → IsQuiet node.mail.wait node.memory }
{}

/// What a reached node needs of pages fits its memory. The pages ascend. Each need has exactly the keys that the copy
/// of its page lacks, and asks each maker for exactly those changes that are not known. A base copy is due or has come
/// exactly if the copy is absent. In a collection the node keeps the named pages that are its own, and needs those of
/// them that are not readable. A node that waits at a miss makes its next access on the page that it needs.
pub fn needs_fit_the_memory()
    ensures each { (node : Node) → IsReached node
        → All (FitsNeed node.setting.nodes (pages_of node.setting.words node.options.size)
        (words_of node.options.size) node.memory)
        (needs_of node.mail.wait) }
    ensures apart { (node : Node) → IsReached node
        → AllPairs (λ (a b : ℕ). a < b)
        (map (λ (need : Need). need.page) (needs_of node.mail.wait)) }
    ensures kept { (node : Node) → IsReached node
        → FitsKept node.setting.me node.memory node.mail.wait }
    ensures access { (node : Node) → IsReached node
        → ReachesFor node.options.size (next_in node.course) node.mail.wait }
{}

/// The changes in a reply that a node expects are of stored notices whose changes are not known, and of words of a
/// page.
pub fn replies_are_of_unread_notices()
    ensures { (node : Node) (from : ℕ) (m : ChangesReplyRecord) → IsReached node
        → expects_changes_reply node from m ≡ true
        → All (λ (part : IndexedChangesRecord).
        (notice_at node.memory.store (record { node = from; index = part.index; page = m.page })
        ≡ Some (unread m.page))
        × All (λ (change : Change). change.offset < words_of node.options.size) part.changes)
        m.parts }
{}

/// At a reached node each copy, twin and base copy is one page long, each remembered time has an entry for each node,
/// and all known changes are of words of a page.
pub fn copies_are_whole()
    ensures copies { (node : Node) → IsReached node
        → All (IsWholeCopy node.setting.nodes (words_of node.options.size)) node.memory.copies }
    ensures bases { (node : Node) → IsReached node
        → All (IsWholeBase (words_of node.options.size)) node.memory.bases }
    ensures changes { (node : Node) → IsReached node
        → All (IsSized (words_of node.options.size)) node.memory.store.entries }
{}

/// A reached node stores each of its own intervals with the changes of all its pages, and its copies have what they
/// wrote. So it has all that a request can ask of it, its copies lack none of its own intervals, and it asks nothing of
/// itself.
pub fn own_changes_are_attached()
    ensures attached { (node : Node) → IsReached node → OwnAttached node.setting.me node.memory }
    ensures copied { (node : Node) → IsReached node → OwnCopied node.setting.me node.memory }
    ensures known { (node : Node) (index page : ℕ) → IsReached node
        → is_some (notice_at node.memory.store
        (record { node = node.setting.me; index = index; page = page })) ≡ true
        → is_some (changes_at node.memory.store
        (record { node = node.setting.me; index = index; page = page })) ≡ true }
    ensures lacking { (node : Node) (page : ℕ) → IsReached node
        → All (λ (key : Key). key.node ≡ node.setting.me → ⊥) (missing_at node.memory page) }
    ensures asked { (node : Node) → IsReached node
        → All (λ (need : Need). All
        (λ (asked : Asked). (asked.maker < node.setting.nodes)
        × (asked.maker ≡ node.setting.me → ⊥)) need.asked)
        (needs_of node.mail.wait) }
{}

/// At a reached node the time remembered of an invalid copy covers the collected time and is covered by the node's
/// time, and the copy lacks a stored interval. If all that a page needs has come, all changes that its copy lacks are
/// known.
pub fn remembered_times_are_between()
    ensures remembered { (node : Node) (page : ℕ) → IsReached node
        → IsBetween node.locks.time node.memory page (copy_at node.memory page) }
    ensures met { (node : Node) (need : Need) → IsReached node
        → FitsNeed node.setting.nodes (pages_of node.setting.words node.options.size)
        (words_of node.options.size) node.memory need
        → is_met need ≡ true → All
        (λ (key : Key). is_none (changes_at node.memory.store key) ≡ false) need.missing }
{}

/// A node's copies are what its open interval made of them. After the turns that lead to the node, a page is written,
/// with a twin, exactly if the node's deeds since its last acquire, release or arrive write it. The page's values are
/// those of the twin after these writes, in order. A node that waits for a grant has already closed its interval.
pub fn copies_are_made_by_the_open_interval()
    ensures { (program : Program) (nodes : ℕ) (options : OptionsRecord) (me : ℕ) (l : Local)
        → LeadsTo program nodes options me l
        → AreMadeBy l.node.options.size l.node.memory
        (open_in l.node.mail.wait (open_writes (deeds_in l.turns))) }
{}

/// If a node still waits at a miss after something for pages has come, the page that it needs is in its memory. A base
/// copy is due or has come exactly if the copy is absent, the keys that the need lacks are of this page, and the text's
/// next access is on it.
pub fn what_comes_can_be_repaired()
    ensures changes { (node : Node) (from : ℕ) (m : ChangesReplyRecord) (need : Need)
        → IsReached node
        → expects_changes_reply node from m ≡ true
        → with_needs (changes_came m.page from) node.mail.wait ≡ access need
        → CanBeRepaired node need }
    ensures page { (node : Node) (from : ℕ) (m : PageReplyRecord) (need : Need) → IsReached node
        → is_expected node from (PageReply m) ≡ true
        → with_needs (page_came m.page m.values) node.mail.wait ≡ access need
        → CanBeRepaired node need }
{}

/// A node can note each access of its turns in the trace that it keeps, in the interval that is open then. That
/// interval's index is at most the number of steps that the node may make. The trace with the access noted is then what
/// the node keeps.
pub fn accesses_can_be_noted()
    ensures fresh { (program : Program) (nodes : ℕ) (options : OptionsRecord) (me : ℕ) → me < nodes
        → IsTraced (fresh_node program nodes options me)
        (untraced (fresh_node program nodes options me)).trace }
    ensures can { (node after : Node) (trace : TraceRecord) (input : Input) (turn : TurnRecord)
        → IsTraced node trace
        → outcome_of node input ≡ done turn after → CanNoteAct after trace turn.act }
    ensures kept { (node after : Node) (trace : TraceRecord) (input : Input) (turn : TurnRecord)
        → IsTraced node trace
        → outcome_of node input ≡ done turn after → IsTraced after (with_act after turn.act trace) }
{}
