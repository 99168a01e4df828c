// The times of acts, by what happens before what.

ghost use Rattle.std.specs.Prelude.{◌≡◌, ◌<◌, ◌≤◌, ◌||◌, ℕ, All, IfOk, false, if◌then◌else◌, is_some, length, map, slice_index_or};
ghost use Rattle.lrc_judge.specs.declared.TheConstants.{NODES};
ghost use Rattle.lrc_judge.specs.Order.{IsOrderOf};
ghost use Rattle.lrc_time.specs.Time.{zeros};
ghost use Rattle.lrc_timeline.specs.Timeline.{times_in};
ghost use Rattle.lrc_chart_build.specs.Course.{is_act_at, shown_act};
ghost use Rattle.lrc_chart_acts.specs.Times.{all_closings, time_if, time_known, times_known};

use crate::closings::{all_closings, count_closed};
use lrc_chart_build::Place;
use lrc_judge::order::Order;
use lrc_time::Time;
use lrc_timeline::timeline::Timeline;
use lrc_trace::act::Act;
use std::alloc::{AllocError, Global};

// The time of the acting node just after the act at a position.
fn time_known(
    order: &Order,
    acts: &[Act],
    closings: &[Vec<usize>],
    nodes: u8,
    position: usize,
) -> Time
    requires some { 1 ≤ nodes }
    requires few { nodes ≤ 16 }
    requires order { IsOrderOf acts.now order.now }
    requires closings { map (λ found. found.items) closings.now ≡ all_closings acts.now nodes }
    requires within { position < length acts.now }
    requires position { position < 4294967295 }
    ensures { result ≡ time_known order.now acts.now nodes position }
{
    let mut time = Time::new(nodes);
    for node in 0..nodes {
        time.set(node, count_closed(order, acts, closings, position, node));
    }
    time
}

// Marks the act at a position, if there is one.
fn mark(marks: &mut Vec<bool>, act: Option<usize>)
    ensures length { length marks.new.items ≡ length marks.old.items }
    ensures marks { (k : ℕ) → k < length marks.old.items
        → slice_index_or marks.new.items k false
        ≡ (slice_index_or marks.old.items k false || is_act_at k act) }
{
    if let Some(act) = act {
        if act < marks.len() {
            marks[act] = true;
        }
    }
}

// Of each of so many acts whether it is shown.
fn marks_of(alloc: Global, count: usize, places: &[Place]) -> Result<Vec<bool>, AllocError>
    ensures length { IfOk result (λ marks. length marks.items ≡ count) }
    ensures marks { IfOk result (λ marks. (k : ℕ) → k < count
        → slice_index_or marks.items k false ≡ is_some (shown_act places.now k)) }
{
    let mut marks = vec![in alloc; false; count]?;
    for place in places {
        mark(&mut marks, place.act);
    }
    Ok(marks)
}

fn time_if(
    order: &Order,
    acts: &[Act],
    closings: &[Vec<usize>],
    nodes: u8,
    is_shown: bool,
    position: usize,
) -> Time
    requires some { 1 ≤ nodes }
    requires few { nodes ≤ 16 }
    requires order { IsOrderOf acts.now order.now }
    requires closings { map (λ found. found.items) closings.now ≡ all_closings acts.now nodes }
    requires within { position < length acts.now }
    requires position { position < 4294967295 }
    ensures { result ≡ (if is_shown then time_known order.now acts.now nodes position
        else zeros nodes) }
{
    if is_shown {
        time_known(order, acts, closings, nodes, position)
    } else {
        Time::new(nodes)
    }
}

/// Returns the times of the acts that are shown, and zeros for the other acts. It fails if memory runs out, or if there
/// are 4,294,967,295 acts or more.
pub(crate) fn times_known(
    alloc: Global,
    order: &Order,
    acts: &[Act],
    nodes: u8,
    places: &[Place],
) -> Result<Timeline, AllocError>
    requires some { 1 ≤ nodes }
    requires few { nodes ≤ 16 }
    requires acts { All (λ act. act.node < NODES) acts.now }
    requires order { IsOrderOf acts.now order.now }
    ensures { IfOk result
        (λ times. times_in times ≡ times_known order.now acts.now nodes places.now) }
{
    if acts.len() >= u32::MAX as usize {
        return Err(AllocError);
    }
    let closings = all_closings(alloc, acts, nodes)?;
    let marks = marks_of(alloc, acts.len(), places)?;
    let mut times = Timeline::none(alloc);
    for (position, act) in acts.iter().enumerate() {
        let time = time_if(
            order,
            acts,
            closings.as_slice(),
            nodes,
            marks[position],
            position,
        );
        times.push(act.node, &time)?;
    }
    Ok(times)
}
