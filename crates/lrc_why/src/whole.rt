// The reasons of an act, and how two acts are ordered.

ghost use Rattle.std.specs.Prelude.{◌≡◌, ◌<◌, IfOk, length};
ghost use Rattle.lrc_trace.specs.Order.{HappensBefore};
ghost use Rattle.lrc_judge.specs.Firsts.{AreIntervals};
ghost use Rattle.lrc_judge.specs.Order.{IsOrderOf};
ghost use Rattle.lrc_why.specs.Whole.{AreReasons, IsRelation};

use crate::about::about;
use crate::known::{all_news, time_of, unknown_nodes, words_closed};
use crate::opponents::opponents;
use crate::parting::{parting, standing};
use crate::positions::{is_act_of, races};
use crate::reasons::{Reasons, Relation};
use crate::spread::forward;
use lrc_judge::order::Order;
use lrc_trace::act::Act;
use lrc_why_chains::chains::chain_told;
use std::alloc::{AllocError, Global};

/// Returns the reasons of the act at the position, among this number of nodes. It fails if memory runs out.
pub fn reasons(
    alloc: Global,
    acts: &[Act],
    order: &Order,
    intervals: &[u64],
    nodes: u8,
    position: usize,
) -> Result<Reasons, AllocError>
    requires order { IsOrderOf acts.now order.now }
    requires intervals { AreIntervals acts.now (length acts.now) intervals.now }
    requires within { position < length acts.now }
    ensures { IfOk result (AreReasons acts.now nodes position) }
{
    let act = acts[position];
    let time = time_of(alloc, acts, order, intervals, nodes, position)?;
    let words = words_closed(alloc, acts, order, intervals, act.deed, position)?;
    let unknown = unknown_nodes(alloc, acts, order, nodes, act.node, position)?;
    let opponents = opponents(alloc, acts, order, intervals, nodes, position)?;
    let news = all_news(alloc, acts, order, intervals, nodes, act.node, position)?;
    let forward = forward(alloc, acts, order, nodes, act.node, act.deed, position)?;
    let about = about(alloc, acts, order, act.node, act.deed, position)?;
    Ok(Reasons {
        about,
        opponents,
        time,
        words,
        news,
        unknown,
        forward,
    })
}

// Of two acts of two nodes that are not in order.
fn apart(
    alloc: Global,
    acts: &[Act],
    order: &Order,
    earlier: usize,
    later: usize,
) -> Result<Relation, AllocError>
    requires order { IsOrderOf acts.now order.now }
    requires earlier { earlier < later }
    requires within { later < length acts.now }
    requires apart { ¬ HappensBefore acts.now earlier later }
    ensures { IfOk result (IsRelation acts.now earlier later) }
{
    let parting = parting(acts, order, earlier, later);
    if !races(acts, order, earlier, later) {
        return Ok(Relation::Apart(parting));
    }
    let first = standing(alloc, acts, earlier)?;
    let second = standing(alloc, acts, later)?;
    Ok(Relation::Race(parting, first, second))
}

/// Returns how the acts at two positions are ordered. It fails if memory runs out.
pub fn relation(
    alloc: Global,
    acts: &[Act],
    order: &Order,
    earlier: usize,
    later: usize,
) -> Result<Relation, AllocError>
    requires order { IsOrderOf acts.now order.now }
    requires earlier { earlier < later }
    requires within { later < length acts.now }
    ensures { IfOk result (IsRelation acts.now earlier later) }
{
    if is_act_of(acts, acts[later].node, earlier) {
        return Ok(Relation::SameNode);
    }
    match chain_told(alloc, acts, earlier, later)? {
        Some(chain) => Ok(Relation::Before(chain)),
        None => apart(alloc, acts, order, earlier, later),
    }
}
