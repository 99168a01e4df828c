// Laws of the exact memory. Each function is a theorem: its body is empty, and its clauses are the law. The statements
// stand in specs/, so that others can cite them.

ghost use Rattle.lrc_exact.specs.Laws.{StatesAreOne, StatesByOneMore, StatesExist, StatesOnPrefix};

/// A run of the given nodes has exactly one list of states.
pub fn the_rule_determines_the_states()
    ensures exist { StatesExist }
    ensures one { StatesAreOne }
{}

/// A prefix of a run has the beginning of its states. One more act keeps the states exactly if its node is in range and
/// the state that is added is that of the rule.
pub fn states_on_a_prefix()
    ensures prefix { StatesOnPrefix }
    ensures one_more { StatesByOneMore }
{}
