// What always holds of stores. Each function is a law: its clauses are the statement, and there is nothing to do.

ghost use Rattle.std.specs.Prelude.{◌≡◌, ◌≢◌, ◌+◌, ◌++◌, ◌∷◌, ◌<◌, ◌↔◌, ℕ, All, AllPairs, Contains, IsTrue, List, None};
ghost use Rattle.std.specs.Prelude.{Some, filter, length, map, not, slice_get, slice_index, []};
ghost use Rattle.lrc_time.specs.Time.{Covers, entry};
ghost use Rattle.lrc_page.specs.declared.changes.Change.{Change};
ghost use Rattle.lrc_store.specs.declared.key.Key.{Key};
ghost use Rattle.lrc_store.specs.Interval.{IntervalRecord, by_weight, index_of};
ghost use Rattle.lrc_store.specs.Lists.{Follows, KnowsTheFirst, before_of, first_notice_of, first_on_page_of, key_at, keys_of, knows_notice, list_of};
ghost use Rattle.lrc_store.specs.Lists.{newest_of, next_in_interval_of, next_on_page_of, nodes_of, notices_in, notices_of, pages_noted};
ghost use Rattle.lrc_store.specs.Store.{StoreRecord, IsMissing, IsNewer, IsStore, added, attached, discarded, is_covered, intervals_of};
ghost use Rattle.lrc_store.specs.Store.{key_of, missing_of, newer_of, notice_at, stored_at, unread, without_changes};

use crate::chains::MOST_ENTRIES;

/// A store has at most 4,294,967,295 intervals, and as many notices.
pub fn the_limits()
    ensures { MOST_ENTRIES ≡ 4294967295 }
{}

/// Adding the next interval of a node makes one entry for it, and its notices have no changes yet. All other entries
/// stay.
pub fn adding_makes_one_entry()
    ensures here { (store : StoreRecord) (interval : IntervalRecord) → IsStore store
        → index_of interval ≡ entry store.last interval.node + 1
        → stored_at (added store interval).entries interval.node (index_of interval)
        ≡ Some (without_changes interval) }
    ensures notices { (store : StoreRecord) (interval : IntervalRecord) (page : ℕ) → IsStore store
        → index_of interval ≡ entry store.last interval.node + 1 → Contains interval.pages page
        → notice_at (added store interval) (key_of page interval) ≡ Some (unread page) }
    ensures others { (store : StoreRecord) (interval : IntervalRecord) (node index : ℕ)
        → ¬ ((node ≡ interval.node) × (index ≡ index_of interval))
        → stored_at (added store interval).entries node index ≡ stored_at store.entries node index }
    ensures intervals { (store : StoreRecord) (interval : IntervalRecord)
        → intervals_of (added store interval) ≡ intervals_of store ++ interval ∷ [] }
{}

/// Changes attached to a notice are found by its key. All other notices, and all intervals, stay.
pub fn attaching_changes_one_notice()
    ensures here { (store : StoreRecord) (key : Key) (changes : List Change)
        → notice_at store key ≡ Some (record { page = key.page; changes = None })
        → notice_at (attached store key changes) key
        ≡ Some (record { page = key.page; changes = Some changes }) }
    ensures others { (store : StoreRecord) (key other : Key) (changes : List Change) → other ≢ key
        → notice_at (attached store key changes) other ≡ notice_at store other }
    ensures intervals { (store : StoreRecord) (key : Key) (changes : List Change)
        → intervals_of (attached store key changes) ≡ intervals_of store }
{}

/// There is exactly one list of the newer intervals, and `newer_of` gives it.
pub fn one_list_is_newer()
    ensures exact { (store : StoreRecord) (since upto : List ℕ) → IsStore store
        → IsNewer store since upto (newer_of store since upto) }
    ensures only { (store : StoreRecord) (since upto : List ℕ) (first second : List IntervalRecord)
        → IsNewer store since upto first → IsNewer store since upto second → first ≡ second }
{}

/// There is exactly one list of the missing notices, and `missing_of` gives it.
pub fn one_list_is_missing()
    ensures exact { (store : StoreRecord) (page : ℕ) (since : List ℕ) → IsStore store
        → IsMissing store page since (missing_of store page since) }
    ensures only { (store : StoreRecord) (page : ℕ) (since : List ℕ) (first second : List Key)
        → IsMissing store page since first → IsMissing store page since second → first ≡ second }
{}

/// If an interval's stamp covers that of another one and differs from it, the other interval's changes are applied
/// first.
pub fn weight_order_extends_cover()
    ensures { (earlier later : IntervalRecord) → length earlier.stamp ≡ length later.stamp
        → Covers later.stamp earlier.stamp → earlier.stamp ≢ later.stamp
        → IsTrue (by_weight earlier later) }
{}

/// Following the links of a node ends, and gives the places of its intervals, newest first, each once. The same holds
/// for the notices of a page.
pub fn links_run_through_the_lists()
    ensures nodes { (store : StoreRecord) (node : ℕ)
        → Follows (before_of store) (newest_of store node) (list_of (nodes_of store) node) }
    ensures pages { (store : StoreRecord) (page : ℕ)
        → Follows (next_on_page_of store) (first_on_page_of store page)
        (list_of (pages_noted store) page) }
{}

/// Following the links of an interval ends, and gives its notices in the order of the pages, one for each page.
pub fn links_run_through_each_interval()
    ensures follows { (store : StoreRecord) (at : ℕ) → IsStore store
        → Follows (next_in_interval_of store) (first_notice_of store at) (notices_in store at) }
    ensures keys { (store : StoreRecord) (at : ℕ) (interval : IntervalRecord)
        → slice_get (intervals_of store) at ≡ Some interval
        → map (key_at store) (notices_in store at) ≡ map Some (keys_of interval) }
    ensures once { (store : StoreRecord) (at : ℕ) → AllPairs (λ a b. a < b) (notices_in store at) }
{}

/// The list of a key has exactly the places with that key, newest first, each once.
pub fn lists_have_exactly_their_places()
    ensures exactly { (keys : List ℕ) (key place : ℕ)
        → Contains (list_of keys key) place
        ↔ ((place < length keys) × (slice_index keys place ≡ key)) }
    ensures newest_first { (keys : List ℕ) (key : ℕ) → AllPairs (λ a b. b < a) (list_of keys key) }
{}

/// When a time knows the first notices of a page, as `missing_until_known` asks. This holds for the last indices of the
/// store, and for a time that knows none of the store's notices. It stays true when changes are attached, when
/// intervals are discarded, and when an interval is added that the time does not know. The next interval of a node is
/// such an interval if the last indices cover the time.
///
/// So let a node remember, with a page, a time that was once the last indices of its store. The time then knows the
/// first notices of the page ever after.
pub fn what_was_known_was_added_first()
    ensures last { (store : StoreRecord) (page : ℕ) → IsStore store
        → KnowsTheFirst store page store.last }
    ensures none { (store : StoreRecord) (page : ℕ) (since : List ℕ)
        → All (λ key. IsTrue (not (knows_notice since key))) (notices_of store)
        → KnowsTheFirst store page since }
    ensures added { (store : StoreRecord) (interval : IntervalRecord) (page : ℕ) (since : List ℕ)
        → KnowsTheFirst store page since → IsTrue (not (is_covered since interval))
        → KnowsTheFirst (added store interval) page since }
    ensures next { (store : StoreRecord) (interval : IntervalRecord) (page : ℕ) (since : List ℕ)
        → KnowsTheFirst store page since → Covers store.last since
        → index_of interval ≡ entry store.last interval.node + 1
        → KnowsTheFirst (added store interval) page since }
    ensures attached { (store : StoreRecord) (key : Key) (changes : List Change) (page : ℕ)
        (since : List ℕ)
        → KnowsTheFirst store page since → KnowsTheFirst (attached store key changes) page since }
    ensures discarded { (store : StoreRecord) (time : List ℕ) (page : ℕ) (since : List ℕ)
        → KnowsTheFirst store page since → KnowsTheFirst (discarded store time) page since }
{}

/// Discarding removes exactly the intervals that the time knows, and leaves a sound store.
pub fn discarding_takes_out_what_is_known()
    ensures intervals { (store : StoreRecord) (time : List ℕ)
        → intervals_of (discarded store time)
        ≡ filter (λ interval. not (is_covered time interval)) (intervals_of store) }
    ensures sound { (store : StoreRecord) (time : List ℕ) → IsStore store
        → IsStore (discarded store time) }
{}
