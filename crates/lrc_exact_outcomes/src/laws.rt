// Laws of exact outcomes. Each function is a theorem: its body is empty, and its clause is the law.

ghost use Rattle.lrc_exact_outcomes.specs.Laws.{ActsChangePlaces, AreFromTheBeginning, AreMadeByTheMachine, EachRunGoesOn, IsOverWhereNoneGoesOn, MayBeMadeFirst};

/// If the second of two neighbouring acts of an exact run may come before the first, the run with these two swapped is
/// exact too.
pub fn acts_of_an_exact_run_change_places()
    ensures { ActsChangePlaces }
{}

/// If a node may come next with an act that is no acquire, the outcomes of the exact runs that go on from here are those of
/// the runs that go on with an act of this node.
pub fn a_node_that_acquires_nothing_may_go_first()
    ensures { MayBeMadeFirst }
{}

/// If some act may come next, an exact run goes on with it, but for the value that it reads. So no node can act after an
/// exact run exactly if no further act makes an exact run.
pub fn an_exact_run_goes_on_where_a_node_can_act()
    ensures goes_on { EachRunGoesOn }
    ensures over { IsOverWhereNoneGoesOn }
{}

/// The exact outcomes of a program are those of the runs that go on from no act. They are those of what the exact machine
/// makes, led by any order.
pub fn exact_outcomes_are_those_of_the_exact_machine()
    ensures beginning { AreFromTheBeginning }
    ensures machine { AreMadeByTheMachine }
{}
