// Laws of runs that read exactly. Each function is a theorem: its body is empty, and its clause is the law.

ghost use Rattle.lrc_exact_laws.specs.Laws.{OnlyLocksDecide, OrderDecides, WithoutLocksAllIsDecided};

/// Only locks decide. Take two runs of one program that read exactly. If in both the nodes acquire each lock in the same
/// order, as far as both go, then each node makes the same acts in both, as far as both go. If no node acquires a lock,
/// each node makes the same acts in every run.
pub fn only_locks_decide()
    ensures locks { OnlyLocksDecide }
    ensures without_locks { WithoutLocksAllIsDecided }
{}

/// The order of the nodes decides all acts. Take two runs of one program that read exactly. If the nodes of the first act
/// in the order of those of the second, as far as the first goes, then the first run begins the second.
pub fn the_order_decides_the_run()
    ensures { OrderDecides }
{}
