// What runs of the protocol machine read, and what their intervals made, by the acts alone. Each function is a theorem: its body is
// empty, and its clauses are the law. The statements stand in specs/, so that others can cite them.

ghost use Rattle.lrc_exact_worlds.specs.Laws.{ActsFixWhatWasMade, AreExactRuns, LocksAloneDecide, OrderFixesActs};
ghost use Rattle.lrc_exact_worlds.specs.Laws.{ReadExactly, ReadSteadily, WasExactlyMade};

/// In every run, whatever the messages' order, however often they come and whatever barriers collect, each read gives the
/// exact memory's value. So reads are steady: where the writes that happen before a read are unordered, it gives the value
/// of one that is the last of them in its interval, and the same until its node writes the word, acquires or departs.
pub fn runs_read_exactly()
    ensures reads { ReadExactly }
    ensures steadily { ReadSteadily }
    ensures runs { AreExactRuns }
{}

/// So the acts are a function of the program, the nodes, the size of a page, the option `collect` and the order in which
/// the nodes act. And the order in which the nodes acquire each lock decides all that each node does: of messages, when
/// they come, how often and in which order, nothing is left.
pub fn locks_alone_decide()
    ensures order { OrderFixesActs }
    ensures locks { LocksAloneDecide }
{}

/// In every run there is one list of intervals with their changes, with which the nodes and the acts agree, and in
/// which each interval has the weight, the pages and the changes that the exact memory gives it. An interval that a node
/// has closed for an acquire that is still to come has those that the acquire will give it.
pub fn what_was_made_is_exact()
    ensures made { WasExactlyMade }
    ensures fixed { ActsFixWhatWasMade }
{}
