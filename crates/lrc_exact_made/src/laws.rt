// Laws of a node whose time and memory are those of a state of the exact memory. Each function is a theorem: its body is empty, and
// its clauses are the law. The statements stand in specs/, so that others can cite them.

ghost use Rattle.lrc_exact_made.specs.Laws.{AccessesExactly, ClosesExactly, HasExactOnceClosed, LearnsExactly};
ghost use Rattle.lrc_exact_made.specs.Laws.{MendsExactly, ReadsWhatIsExact, RepairsExactly, WritesExactly};

/// Twins and copies that have what the exact memory has make the changes that it gives the interval: the words that the
/// node wrote and whose value now is another than before the first write. The interval's weight and its pages are the
/// exact memory's too.
pub fn what_is_closed_is_exact()
    ensures interval { ClosesExactly }
    ensures node { HasExactOnceClosed }
{}

/// A node that learns which pages others wrote, and no changes yet, goes on to have what the exact memory has: an invalid
/// copy lacks just the changes that the exact memory has put in place.
pub fn what_is_learned_is_exact()
    ensures { LearnsExactly }
{}

/// An invalid copy with the changes that it lacks, applied by rising weight and node, is the page that the exact memory
/// has: of changes that came together that of the highest rank stays.
pub fn what_is_repaired_is_exact()
    ensures words { RepairsExactly }
    ensures node { MendsExactly }
{}

/// Reads give the exact memory's values, and accesses leave what a node has as the exact memory has it.
pub fn what_is_accessed_is_exact()
    ensures reads { ReadsWhatIsExact }
    ensures accesses { AccessesExactly }
    ensures writes { WritesExactly }
{}
