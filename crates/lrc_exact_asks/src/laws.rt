// Laws of what nodes hold, and when they ask for a collection. Each function is a theorem: its body is empty, and its clauses are the
// law. The statements stand in specs/, so that others can cite them.

ghost use Rattle.lrc_exact_asks.specs.Laws.{AsksExactly, HoldsExactly};

/// A reached node stores as many intervals as its time covers beyond those that were collected. So it asks for a
/// collection exactly if the exact memory's state with these times does.
pub fn what_is_held_is_counted()
    ensures held { HoldsExactly }
    ensures asks { AsksExactly }
{}
