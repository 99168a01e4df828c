// A node in a collection, step by step. Each function is a theorem: its body is empty, and its clauses are the law. The statements
// stand in specs/, so that others can cite them.

ghost use Rattle.lrc_exact_collecting.specs.Laws.{HasPagesOnceDiscarded, HasPagesOnceKept, LeavesWhatIsKept, LeavesWhatWasLeft};

/// A node whose pages are those of a state of the exact memory goes on to have them so as it repairs the pages that it keeps,
/// which the exact memory has accessed then as far as they were stale; and as it drops what was collected, where the exact
/// memory departs: for each copy that is dropped stands what the page's keeper had once it had learned what was known to all.
pub fn what_is_collected_stays_exact()
    ensures kept { HasPagesOnceKept }
    ensures discarded { HasPagesOnceDiscarded }
{}

/// What a collection leaves of a page is what its keeper has once it has repaired the page; and of a page that no interval
/// named since the last collection, what was left before.
pub fn a_collection_leaves_what_its_keepers_have()
    ensures kept { LeavesWhatIsKept }
    ensures before { LeavesWhatWasLeft }
{}
