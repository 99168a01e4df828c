// The entries of a mailbox's history.

ghost use Rattle.std.specs.Prelude.{◌≡◌, position};
ghost use Rattle.std.specs.List.{list_all};
ghost use Rattle.lrc_weave.specs.Compared.{IsNextTake, is_by_node, is_take};
ghost use Rattle.lrc_weave.specs.Matched.{place_taken};

use lrc_post::Wire;

/// Returns whether each put is by one of so many nodes.
pub(crate) fn are_by_nodes(history: &[Wire], nodes: usize) -> bool
    ensures { result ≡ list_all (is_by_node nodes) history.now }
{
    history.iter().all(|wire| is_by_node(wire, nodes))
}

// Whether an entry is a take, or a put by one of so many nodes.
fn is_by_node(wire: &Wire, nodes: usize) -> bool
    ensures { result ≡ is_by_node nodes wire.now }
{
    match wire {
        Wire::Put { from, .. } => usize::from(*from) < nodes,
        Wire::Took { .. } => true,
    }
}

/// Returns the place that the next take names, and moves the history past that take.
pub(crate) fn next_take(history: &mut &[Wire]) -> Option<usize>
    ensures { IsNextTake history.old.now history.new.now result }
{
    let at = take_place(history)?;
    let place = place_taken(&history[at]);
    *history = &history[at + 1..];
    place
}

// The place of the first take.
fn take_place(history: &[Wire]) -> Option<usize>
    ensures { result ≡ position is_take history.now }
{
    history.iter().position(is_take)
}

// Whether an entry is a take.
fn is_take(wire: &Wire) -> bool
    ensures { result ≡ is_take wire.now }
{
    place_taken(wire).is_some()
}

// The place that a take names.
fn place_taken(wire: &Wire) -> Option<usize>
    ensures { result ≡ place_taken wire.now }
{
    match wire {
        Wire::Put { .. } => None,
        Wire::Took { place, .. } => Some(*place),
    }
}
