// What is printed of a text of acts.

ghost use Rattle.std.specs.Prelude.{◌≡◌, ◌≢◌, ◌<◌, ◌≤◌, [], All, IfErr, IfOk, IfSome, MatchOption, length};
ghost use Rattle.lrc_page.specs.Page.{words_of};
ghost use Rattle.lrc_judge.specs.declared.TheConstants.{NODES};
ghost use Rattle.lrc_text.specs.Parts.{whole_text};
ghost use Rattle.lrc_why_lines.specs.declared.shown.Shown.{Shown as AnyShown};
ghost use Rattle.lrc_why_text.specs.Answers.{AnswersActs, IsMissing, IsShownPlainly, IsThere, RefusesActs, TellsOf};

use crate::asked::Asked;
use crate::fault::WhyFault;
use crate::whole::why_part;
use lrc_acts::reading::acts_of;
use lrc_acts_lines::act_lines;
use lrc_judge::intervals_of;
use lrc_judge::order::happens_before;
use lrc_judge_text::judge::nodes_of;
use lrc_labels::label::Label;
use lrc_named_core::tree::Trap;
use lrc_page::Size;
use lrc_trace::act::Act;
use lrc_why_lines::shown::Shown;
use std::alloc::{AllocError, Global};

/// Returns the first of the asked positions that is past the last of `count` acts, or none if both acts exist.
pub fn missing(asked: Asked, count: usize) -> Option<usize>
    ensures { MatchOption result (IsThere asked.act asked.and count)
        (IsMissing asked.act asked.and count) }
{
    if asked.act >= count {
        return Some(asked.act);
    }
    match asked.and {
        Some(other) if other >= count => Some(other),
        _ => None,
    }
}

fn told(
    alloc: Global,
    acts: &[Act],
    lines: &[u32],
    labels: &[Label<'_>],
    nodes: u8,
    page: Size,
    asked: Asked,
) -> Result<Vec<Vec<u8>>, AllocError>
    requires nodes { All (λ act. act.node < NODES) acts.now }
    requires plain { labels.now ≡ [] }
    requires there { IsThere asked.act asked.and (length acts.now) }
    requires apart { IfSome asked.and (λ other. other ≢ asked.act) }
    ensures { IfOk result (λ parts. (shown : AnyShown) × IsShownPlainly shown acts.now lines.now
        × TellsOf shown nodes (words_of page) asked.act asked.and [] (whole_text parts.items)) }
{
    let order = happens_before(alloc, acts)?;
    let intervals = intervals_of(alloc, acts)?;
    let shown = Shown {
        acts,
        lines,
        intervals: intervals.as_slice(),
        labels,
        trap: Trap::Plain,
    };
    let part = why_part(
        alloc,
        shown,
        &order,
        nodes,
        u32::from(page.words()),
        asked,
        b"",
    )?;
    let mut parts = Vec::new(alloc);
    parts.push(part)?;
    Ok(parts)
}

/// Returns what `why` prints for a text of acts, or why it refuses the text. `nodes` is the number of nodes, if it is
/// given; `page` is the page size.
pub fn why_acts(
    alloc: Global,
    text: &[u8],
    nodes: Option<u32>,
    page: Size,
    asked: Asked,
) -> Result<Vec<Vec<u8>>, WhyFault>
    requires nodes { IfSome nodes (λ count. count ≤ NODES) }
    requires apart { IfSome asked.and (λ other. other ≢ asked.act) }
    ensures ok { IfOk result (λ parts. AnswersActs nodes page asked text.now
        (whole_text parts.items)) }
    ensures err { IfErr result (RefusesActs nodes asked text.now) }
{
    let lined = acts_of(alloc, text, nodes)?;
    let count = lined.acts.len();
    if let Some(position) = missing(asked, count) {
        return Err(WhyFault::NoAct(position, count));
    }
    let lines = act_lines(alloc, text, &lined.lines)?;
    let parts = told(
        alloc,
        &lined.acts,
        &lines,
        &[],
        nodes_of(nodes, &lined.acts),
        page,
        asked,
    )?;
    Ok(parts)
}
