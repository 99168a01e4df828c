// A node's turns beside the exact memory. The function is a theorem: its body is empty, and its clause is the law. The statement
// stands in specs/, so that others can cite it.

ghost use Rattle.lrc_exact_turns.specs.Laws.{StandsOnceDiscarded};

/// A node that has repaired the pages that it keeps, and is told to discard, goes on to have of its pages what the exact
/// memory has once it has departed from the barrier that collects; and each base copy that it keeps then has what the
/// collection left of the page.
pub fn what_stands_once_it_is_discarded()
    ensures { StandsOnceDiscarded }
{}
