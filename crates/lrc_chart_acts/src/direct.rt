// Releases and acquires that nothing but the two themselves orders.

ghost use Rattle.std.specs.Prelude.{◌≡◌, ◌&&◌, ◌||◌, ◌++◌, IfOk, OnOk, map, nat_lt, not, take};
ghost use Rattle.std.specs.Prelude.{codes, decimal};
ghost use Rattle.lrc_judge.specs.Order.{is_before};
ghost use Rattle.lrc_text.specs.Each.{each};
ghost use Rattle.lrc_chart_build.specs.Seen.{seen_arrow};
ghost use Rattle.lrc_chart_acts.specs.Direct.{acquired_lock, arrow_between, arrow_hint, arrow_if, arrow_of, arrows_to, direct_arrows};
ghost use Rattle.lrc_chart_acts.specs.Direct.{direct_lock, goes_over, lock_between, lock_unless, passed_lock};

use lrc_chart_build::Place;
use lrc_chart_model::Arrow;
use lrc_explain::act_at;
use lrc_judge::order::Order;
use lrc_text::push_number;
use lrc_trace::act::{Act, Deed};
use std::alloc::{AllocError, Global};

// Whether the act at k follows the one at the earlier position and comes before the one at the later.
fn is_between(order: &Order, earlier: usize, k: usize, later: usize) -> bool
    ensures { result ≡ (is_before order.now earlier k && is_before order.now k later) }
{
    order.is_before(earlier, k) && order.is_before(k, later)
}

// Whether some act follows the one at the earlier position and comes before the one at the later.
fn goes_over(order: &Order, earlier: usize, later: usize) -> bool
    ensures { result ≡ goes_over order.now earlier later later }
{
    for k in earlier..later {
        if is_between(order, earlier, k, later) {
            return true;
        }
    }
    false
}

fn acquired_lock(lock: u8, later: Deed) -> Option<u8>
    ensures { result ≡ acquired_lock lock later }
{
    match later {
        Deed::Acquire(other) if lock == other => Some(lock),
        _ => None,
    }
}

// The lock that a deed releases and another one acquires.
fn passed_lock(earlier: Deed, later: Deed) -> Option<u8>
    ensures { result ≡ passed_lock earlier later }
{
    match earlier {
        Deed::Release(lock) => acquired_lock(lock, later),
        _ => None,
    }
}

// The same of two acts, which are of different nodes.
fn lock_between(earlier: Act, later: Act) -> Option<u8>
    ensures { result ≡ lock_between earlier later }
{
    if earlier.node == later.node {
        None
    } else {
        passed_lock(earlier.deed, later.deed)
    }
}

// The lock that goes from the act at one position to that at another, where no other act is between them.
fn direct_lock(order: &Order, acts: &[Act], earlier: usize, later: usize) -> Option<u8>
    ensures { result ≡ direct_lock order.now acts.now earlier later }
{
    let lock = lock_between(act_at(acts, earlier), act_at(acts, later));
    if lock.is_none() {
        return None;
    }
    if earlier >= later || goes_over(order, earlier, later) {
        None
    } else {
        lock
    }
}

fn label_of(alloc: Global, lock: u8) -> Result<Vec<u8>, AllocError>
    ensures { IfOk result (λ label. label.items ≡ codes "lock " ++ decimal lock) }
{
    let mut label = Vec::new(alloc);
    push_number(&mut label, b"lock ", u64::from(lock))?;
    Ok(label)
}

fn hint_of(alloc: Global, lock: u8, earlier: usize, later: usize) -> Result<Vec<u8>, AllocError>
    ensures { IfOk result (λ hint. hint.items ≡ arrow_hint lock earlier later) }
{
    let mut hint = Vec::new(alloc);
    push_number(&mut hint, b"lock ", u64::from(lock))?;
    push_number(&mut hint, b", act ", earlier as u64)?;
    push_number(&mut hint, b", act ", later as u64)?;
    Ok(hint)
}

fn arrow_of(
    alloc: Global,
    acts: &[Act],
    from: usize,
    earlier: usize,
    to: usize,
    later: usize,
    lock: u8,
) -> Result<Arrow, AllocError>
    ensures { IfOk result (λ arrow. seen_arrow arrow
        ≡ arrow_of acts.now from earlier to later lock) }
{
    Ok(Arrow {
        from,
        sender: act_at(acts, earlier).node,
        to,
        receiver: act_at(acts, later).node,
        again: false,
        label: label_of(alloc, lock)?,
        hint: hint_of(alloc, lock, earlier, later)?,
    })
}

// Adds the arrow between the rows at two places, if there is one.
fn push_between(
    alloc: Global,
    arrows: &mut Vec<Arrow>,
    order: &Order,
    acts: &[Act],
    to: usize,
    later: Place,
    from: usize,
    earlier: Place,
) -> Result<(), AllocError>
    ensures { OnOk result (map seen_arrow arrows.new.items
        ≡ map seen_arrow arrows.old.items
        ++ arrow_between order.now acts.now to later from earlier) }
{
    if let Some(lock) = direct_lock(order, acts, earlier.turn, later.turn) {
        arrows.push(arrow_of(alloc, acts, from, earlier.turn, to, later.turn, lock)?)?;
    }
    Ok(())
}

// Adds the arrows to the row at a place, from those of these rows above it.
fn push_arrows_to(
    alloc: Global,
    arrows: &mut Vec<Arrow>,
    order: &Order,
    acts: &[Act],
    above: &[Place],
    to: usize,
    later: Place,
) -> Result<(), AllocError>
    ensures { OnOk result (map seen_arrow arrows.new.items
        ≡ map seen_arrow arrows.old.items
        ++ each (arrow_between order.now acts.now to later) above.now) }
{
    for (from, earlier) in above.iter().enumerate() {
        push_between(alloc, arrows, order, acts, to, later, from, *earlier)?;
    }
    Ok(())
}

/// Returns an arrow for each release and acquire in these rows that no other acts order.
pub(crate) fn direct_arrows(
    alloc: Global,
    order: &Order,
    acts: &[Act],
    places: &[Place],
) -> Result<Vec<Arrow>, AllocError>
    ensures { IfOk result (λ arrows. map seen_arrow arrows.items
        ≡ direct_arrows order.now acts.now places.now) }
{
    let mut arrows = Vec::new(alloc);
    for (to, later) in places.iter().enumerate() {
        push_arrows_to(alloc, &mut arrows, order, acts, &places[..to], to, *later)?;
    }
    Ok(arrows)
}
