// Ways between columns.

ghost use Rattle.std.specs.Prelude.{◌≡◌, ◌≤◌, ◌<◌, ◌^◌, codes};
ghost use Rattle.lrc_chart_svg.specs.Shown.{coming, leaving};

use crate::layout::Layout;
use crate::paint::Point;
use crate::style::Anchor;

// What is drawn of an arrow beside its line: how it leaves a box, and how it comes to one.
const LEAVES_TO_RIGHT: &[u8] = b"h-8";

const LEAVES_TO_LEFT: &[u8] = b"h8";

const COMES_FROM_LEFT: &[u8] = b"h12 l-9 -4 v8 l9 -4";

const COMES_FROM_RIGHT: &[u8] = b"h-12 l9 -4 v8 l-9 -4";

const COMES_FROM_ITSELF: &[u8] = b"h-8 l8 -4 v8 l-8 -4";

/// The way of an arrow between two columns, from side to facing side.
#[derive(Clone, Copy)]
pub(crate) struct Span {
    /// The side where the way starts, and the side where it ends.
    pub start: u128,
    pub end: u128,
    // Where an arrow's line begins and ends, and what is drawn at each end.
    from: u128,
    to: u128,
    pub leaves: &'static [u8],
    pub comes: &'static [u8],
    /// The place of words beside the end, and of words beyond it.
    pub words: u128,
    pub anchor: Anchor,
    pub beyond: u128,
    pub beyond_anchor: Anchor,
}

impl Span {
    ghost use Rattle.std.specs.Prelude.{◌+◌, ◌-◌};
    ghost use Rattle.lrc_chart_svg.specs.Ways.{beside, beside_anchor, beyond, beyond_anchor, end_side, head, left, right, start_side, tail};
    ghost use Rattle.lrc_chart_svg.specs.Plan.{plan_in};
    ghost use Rattle.lrc_chart_svg.specs.declared.style.Anchor.TheVariants.{Start, End};

    pub(crate) fn between(layout: &Layout, from: u8, to: u8) -> Span
        ensures start { result.start ≡ start_side (plan_in layout.now) from to }
        ensures end { result.end ≡ end_side (plan_in layout.now) from to }
        ensures tail { result.from ≡ tail (plan_in layout.now) from to }
        ensures head { result.to ≡ head (plan_in layout.now) from to }
        ensures words { result.words ≡ beside (plan_in layout.now) from to }
        ensures anchor { result.anchor ≡ beside_anchor from to }
        ensures beyond { result.beyond ≡ beyond (plan_in layout.now) from to }
        ensures beyond_anchor { result.beyond_anchor ≡ beyond_anchor from to }
        ensures leaves { result.leaves.now ≡ leaving from to }
        ensures comes { result.comes.now ≡ coming from to }
    {
        if from < to {
            Span::to_right(layout, from, to)
        } else if to < from {
            Span::to_left(layout, from, to)
        } else {
            Span::to_itself(layout, from)
        }
    }

    fn to_right(layout: &Layout, from: u8, to: u8) -> Span
        ensures start { result.start ≡ right (plan_in layout.now) from }
        ensures end { result.end ≡ left (plan_in layout.now) to }
        ensures tail { result.from ≡ right (plan_in layout.now) from + 8 }
        ensures head { result.to ≡ left (plan_in layout.now) to - 12 }
        ensures words { result.words ≡ left (plan_in layout.now) to - 9 }
        ensures anchor { result.anchor ≡ End }
        ensures beyond { result.beyond ≡ left (plan_in layout.now) to + 4 }
        ensures beyond_anchor { result.beyond_anchor ≡ Start }
        ensures leaves { result.leaves.now ≡ codes "h-8" }
        ensures comes { result.comes.now ≡ codes "h12 l-9 -4 v8 l9 -4" }
    {
        let start = u128::from(layout.lane(usize::from(from)).right);
        let end = u128::from(layout.lane(usize::from(to)).left);
        Span {
            start,
            end,
            from: start + 8,
            to: end.saturating_sub(12),
            leaves: LEAVES_TO_RIGHT,
            comes: COMES_FROM_LEFT,
            words: end.saturating_sub(9),
            anchor: Anchor::End,
            beyond: end + 4,
            beyond_anchor: Anchor::Start,
        }
    }

    fn to_left(layout: &Layout, from: u8, to: u8) -> Span
        ensures start { result.start ≡ left (plan_in layout.now) from }
        ensures end { result.end ≡ right (plan_in layout.now) to }
        ensures tail { result.from ≡ left (plan_in layout.now) from - 8 }
        ensures head { result.to ≡ right (plan_in layout.now) to + 12 }
        ensures words { result.words ≡ right (plan_in layout.now) to + 9 }
        ensures anchor { result.anchor ≡ Start }
        ensures beyond { result.beyond ≡ right (plan_in layout.now) to - 4 }
        ensures beyond_anchor { result.beyond_anchor ≡ End }
        ensures leaves { result.leaves.now ≡ codes "h8" }
        ensures comes { result.comes.now ≡ codes "h-12 l9 -4 v8 l-9 -4" }
    {
        let start = u128::from(layout.lane(usize::from(from)).left);
        let end = u128::from(layout.lane(usize::from(to)).right);
        Span {
            start,
            end,
            from: start.saturating_sub(8),
            leaves: LEAVES_TO_LEFT,
            ..Span::from_right(end)
        }
    }

    fn to_itself(layout: &Layout, column: u8) -> Span
        ensures start { result.start ≡ right (plan_in layout.now) column }
        ensures end { result.end ≡ right (plan_in layout.now) column }
        ensures tail { result.from ≡ right (plan_in layout.now) column + 8 }
        ensures head { result.to ≡ right (plan_in layout.now) column + 8 }
        ensures words { result.words ≡ right (plan_in layout.now) column + 9 }
        ensures anchor { result.anchor ≡ Start }
        ensures beyond { result.beyond ≡ right (plan_in layout.now) column - 4 }
        ensures beyond_anchor { result.beyond_anchor ≡ End }
        ensures leaves { result.leaves.now ≡ codes "h-8" }
        ensures comes { result.comes.now ≡ codes "h-8 l8 -4 v8 l-8 -4" }
    {
        let side = u128::from(layout.lane(usize::from(column)).right);
        Span {
            from: side + 8,
            to: side + 8,
            comes: COMES_FROM_ITSELF,
            ..Span::from_right(side)
        }
    }

    // A way to a column's right side that stays beside it.
    fn from_right(side: u128) -> Span
        requires { side < 2 ^ 66 }
        ensures start { result.start ≡ side }
        ensures end { result.end ≡ side }
        ensures tail { result.from ≡ side + 12 }
        ensures head { result.to ≡ side + 12 }
        ensures words { result.words ≡ side + 9 }
        ensures anchor { result.anchor ≡ Start }
        ensures beyond { result.beyond ≡ side - 4 }
        ensures beyond_anchor { result.beyond_anchor ≡ End }
        ensures leaves { result.leaves.now ≡ codes "h-8" }
        ensures comes { result.comes.now ≡ codes "h-12 l9 -4 v8 l-9 -4" }
    {
        Span {
            start: side,
            end: side,
            from: side + 12,
            to: side + 12,
            leaves: LEAVES_TO_RIGHT,
            comes: COMES_FROM_RIGHT,
            words: side + 9,
            anchor: Anchor::Start,
            beyond: side.saturating_sub(4),
            beyond_anchor: Anchor::End,
        }
    }

    /// Returns the point where an arrow's line begins.
    pub(crate) fn tail(self, row: u128) -> Point
        ensures left { result.x ≡ self.from }
        ensures row { result.y ≡ row }
    {
        Point {
            x: self.from,
            y: row,
        }
    }

    /// Returns the point where an arrow's line ends.
    pub(crate) fn head(self, row: u128) -> Point
        ensures left { result.x ≡ self.to }
        ensures row { result.y ≡ row }
    {
        Point { x: self.to, y: row }
    }
}
