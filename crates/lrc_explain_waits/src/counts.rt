// How often a node came to barriers and went on from them, and how many steps it took.

ghost use Rattle.std.specs.Prelude.{◌≡◌};
ghost use Rattle.lrc_trace.specs.Run.{count_of, is_arrive, is_depart};
ghost use Rattle.lrc_explain_waits.specs.Stand.{costs};

use lrc_trace::act::{Act, Deed};

fn is_arrive(deed: Deed) -> bool
    ensures { result ≡ is_arrive deed }
{
    matches!(deed, Deed::Arrive)
}

fn is_depart(deed: Deed) -> bool
    ensures { result ≡ is_depart deed }
{
    matches!(deed, Deed::Depart)
}

// Whether a deed took a step.
fn costs(deed: Deed) -> bool
    ensures { result ≡ costs deed }
{
    !matches!(deed, Deed::Depart | Deed::End)
}

// How often a node has come to a barrier.
pub(crate) fn arrives_of(node: u8, acts: &[Act]) -> usize
    ensures { result ≡ count_of is_arrive node acts.now }
{
    acts.iter()
        .filter(|act| act.node == node && is_arrive(act.deed))
        .count()
}

// How often a node has gone on from a barrier.
pub(crate) fn departs_of(node: u8, acts: &[Act]) -> usize
    ensures { result ≡ count_of is_depart node acts.now }
{
    acts.iter()
        .filter(|act| act.node == node && is_depart(act.deed))
        .count()
}

// How many steps a node has taken.
pub(crate) fn spent_of(node: u8, acts: &[Act]) -> usize
    ensures { result ≡ count_of costs node acts.now }
{
    acts.iter()
        .filter(|act| act.node == node && costs(act.deed))
        .count()
}
