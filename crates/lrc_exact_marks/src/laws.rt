// Laws of marks and of weights. Each function is a theorem: its body is empty, and its clauses are the law.

ghost use Rattle.lrc_exact_marks.specs.Parts.{LearnedIsMerged};
ghost use Rattle.lrc_exact_marks.specs.Weights.{KnownWeighsLess, WeightsOfANodeRise};

/// In however many parts the changes of a word without a mark are learned, the word comes to have what it has if all of
/// them are put in place one by one, by rising rank. So the last of these gives its value and its mark.
pub fn marks_are_of_merged_lists()
    ensures { LearnedIsMerged }
{}

/// What is known to the node of an interval just before the interval is closed weighs less than the interval. So the
/// intervals of one node have different weights, which rise.
pub fn weights_rise_with_what_is_known()
    ensures known { KnownWeighsLess }
    ensures one_node { WeightsOfANodeRise }
{}
