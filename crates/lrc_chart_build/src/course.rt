// What is known of a run.

use lrc_chart_rows::TurnOf;
use lrc_judge::first_pairs::Pair;
use lrc_labels::label::Label;
use lrc_timeline::timeline::Timeline;
use lrc_trace::act::Act;
use std::marker::Model;

/// The acts in order, with what is known about them. By act position: the line of the program's text, and the node's
/// time just after the act. For each named race: the first pair of acts that it names. Also the labels of words and
/// locks.
#[derive(Drop)]
pub struct Known<'a> {
    pub acts: &'a [Act],
    pub lines: &'a [u32],
    pub times: &'a Timeline,
    pub pairs: &'a [Pair],
    pub labels: &'a [Label<'a>],
}

impl<'a> Model for Known<'a> {
    ghost use Rattle.std.specs.Prelude.{map};
    ghost use Rattle.lrc_labels.specs.Reading.{label_seen};
    ghost use Rattle.lrc_timeline.specs.Timeline.{times_in};
    ghost use Rattle.lrc_chart_build.specs.Course.{KnownRecord};

    ghost Value = { KnownRecord };

    ghost view = { λ k. record { acts = k.acts.now; lines = k.lines.now; times = times_in k.times.now; pairs = k.pairs.now; labels = map label_seen k.labels.now } };
}

/// A run: its turns in order, the pages that become invalid at each of them, its acts with what is known about them, and
/// the node that each node waits for at the end of the run.
#[derive(Drop)]
pub struct Course<'a> {
    pub turns: &'a [TurnOf<'a>],
    pub invalid: &'a [Vec<u16>],
    pub known: Known<'a>,
    pub waits: &'a [Option<usize>],
}

impl<'a> Model for Course<'a> {
    ghost use Rattle.std.specs.Prelude.{map};
    ghost use Rattle.lrc_chart_build.specs.Course.{CourseRecord};

    ghost Value = { CourseRecord };

    ghost view = { λ c. record { turns = c.turns.now; invalid = map (λ pages. pages.items) c.invalid.now; known = c.known; waits = c.waits.now } };
}
