// What one node has of its pages where barriers collect, beside a state of the exact memory. Each function is a theorem: its
// body is empty, and its clauses are the law. The statements stand in specs/, so that others can cite them.

ghost use Rattle.lrc_exact_pages.specs.Laws.{HasPagesOnceAccessed, HasPagesOnceClosed, HasPagesOnceLearned, HasPagesOnceMended};
ghost use Rattle.lrc_exact_pages.specs.Laws.{HasPagesOnceWritten, RepairsWhatWasDropped};

/// Take a node whose time, memory and collected time are those of a state of the exact memory: its readable pages are not
/// stale, its invalid ones are, and for each copy that it dropped stands what the last collection left, with the changes that
/// came since. It is so again once it has closed its interval, and once it has learned what the exact memory lets it learn.
pub fn what_is_known_of_pages_is_exact()
    ensures closed { HasPagesOnceClosed }
    ensures learned { HasPagesOnceLearned }
{}

/// It is so again once the node has read or written a page, and once a page has become valid with the exact memory's values.
pub fn what_is_accessed_stays_exact()
    ensures accessed { HasPagesOnceAccessed }
    ensures written { HasPagesOnceWritten }
    ensures mended { HasPagesOnceMended }
{}

/// A base copy that has what the last collection left, with the changes that came since applied in their order, has the
/// exact memory's values.
pub fn what_was_dropped_is_repaired_exactly()
    ensures { RepairsWhatWasDropped }
{}
