// What collections of runs are, by the acts alone. Each function is a theorem: its body is empty, and its clauses are the law.
// The statements stand in specs/, so that others can cite them.

ghost use Rattle.lrc_exact_collected.specs.Keepers.{KeepersAreExact};
ghost use Rattle.lrc_exact_collected.specs.Laws.{CollectsExactly};

/// In every run, whatever the messages' order and however often they come, a node that arrives asks for a collection exactly
/// if the exact memory counts so many intervals that it knows and has not dropped. A barrier collects exactly if the exact
/// memory's does, and each node drops what the exact memory drops.
pub fn barriers_collect_exactly()
    ensures { CollectsExactly }
{}

/// Take a node that stores just the intervals that are known at all arrives and that were not dropped, where what is known
/// of each is what it did. A page that one of them names goes to the exact memory's keeper, and each other page stays with
/// its keeper.
pub fn keepers_are_exact()
    ensures { KeepersAreExact }
{}
