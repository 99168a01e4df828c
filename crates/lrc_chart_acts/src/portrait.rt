// Acts from anywhere as a picture.

ghost use Rattle.std.specs.Prelude.{◌≡◌, ◌<◌, ◌≤◌, All, IfErr, IfOk, IfSome};
ghost use Rattle.lrc_chart_build.specs.declared.part.Part.{Part as AnyPart};
ghost use Rattle.lrc_judge.specs.declared.TheConstants.{NODES};
ghost use Rattle.lrc_chart_acts.specs.Picture.{IsActsPortrait, IsActsPortraitFault, IsPictureOfActs, IsPortraitOfActs};
ghost use Rattle.lrc_chart_acts.specs.Shown.{acts_shown};

use crate::direct::direct_arrows;
use crate::fault::ActsChartFault;
use crate::rows::act_rows;
use crate::shown::acts_shown;
use crate::times::times_known;
use lrc_acts::reading::acts_of;
use lrc_acts_lines::act_lines;
use lrc_chart_build::{Known, MOST_ROWS, Part, Place, bands_of, columns_of, races_of};
use lrc_chart_model::Picture;
use lrc_judge::first_pairs::first_pairs;
use lrc_judge::order::{Order, happens_before};
use lrc_judge_text::judge::nodes_of;
use lrc_trace::act::Act;
use std::alloc::{AllocError, Global};

// What a picture has of these rows, under a title.
fn picture_of(
    alloc: Global,
    title: &[u8],
    nodes: u8,
    order: &Order,
    known: &Known<'_>,
    places: &[Place],
) -> Result<Picture, AllocError>
    ensures { IfOk result (IsPictureOfActs title.now nodes order.now known.now places.now) }
{
    Ok(Picture {
        title: Vec::from_slice(alloc, title)?,
        columns: columns_of(alloc, nodes)?,
        rows: act_rows(alloc, known, places)?,
        arrows: direct_arrows(alloc, order, known.acts, places)?,
        lost: Vec::new(alloc),
        bands: bands_of(alloc, known.acts, places)?,
        races: races_of(alloc, known, places)?,
        deadlocks: Vec::new(alloc),
        source: Vec::new(alloc),
    })
}

// The picture of a part of these acts, which are of these lines.
fn portrait_in(
    alloc: Global,
    title: &[u8],
    nodes: u8,
    acts: &[Act],
    lines: &[u32],
    places: &[Place],
) -> Result<Picture, AllocError>
    requires some { 1 ≤ nodes }
    requires few { nodes ≤ 16 }
    requires acts { All (λ act. act.node < NODES) acts.now }
    ensures { IfOk result (λ picture. (part : AnyPart) → places.now ≡ acts_shown part acts.now
        → IsPortraitOfActs title.now nodes acts.now lines.now part picture) }
{
    let order = happens_before(alloc, acts)?;
    let times = times_known(alloc, &order, acts, nodes, places)?;
    let pairs = first_pairs(alloc, &order, acts)?;
    let known = Known {
        acts,
        lines,
        times: &times,
        pairs: pairs.as_slice(),
        labels: &[],
    };
    picture_of(alloc, title, nodes, &order, &known, places)
}

/// Builds the picture of the acts in a text of the form that `judge` reads, with this title.
///
/// The picture has the given number of nodes (1 to 16), or by default the greatest node that acts plus one. The errors
/// are those of [`ActsChartFault`].
pub fn portrait_of_acts(
    alloc: Global,
    title: &[u8],
    text: &[u8],
    nodes: Option<u32>,
    part: Part,
) -> Result<Picture, ActsChartFault>
    requires some { IfSome nodes (λ count. 1 ≤ count) }
    requires few { IfSome nodes (λ count. count ≤ 16) }
    ensures ok { IfOk result (IsActsPortrait title.now nodes text.now part) }
    ensures err { IfErr result (IsActsPortraitFault nodes text.now part) }
{
    let lined = acts_of(alloc, text, nodes)?;
    let acts = lined.acts.as_slice();
    let places = acts_shown(alloc, part, acts)?;
    if places.len() > MOST_ROWS {
        return Err(ActsChartFault::TooLong);
    }
    let lines = act_lines(alloc, text, &lined.lines)?;
    let count = nodes_of(nodes, acts);
    let picture = portrait_in(
        alloc,
        title,
        count,
        acts,
        lines.as_slice(),
        places.as_slice(),
    )?;
    Ok(picture)
}
