// Colours, lines and letters. Each kind of row has a border of its own, so that it is told apart in grey too.

ghost use Rattle.std.specs.Prelude.{◌≡◌, codes};
ghost use Rattle.lrc_chart_svg.specs.Attributes.{anchor_word};
ghost use Rattle.lrc_chart_svg.specs.declared.style.Anchor.TheVariants.{Start};
ghost use Rattle.lrc_chart_svg.specs.Shown.{message_dashes, row_border, row_dashes, through};

use lrc_chart_model::Kind;

/// The style of an area or a line, as values of SVG attributes.
#[derive(Clone, Copy)]
pub(crate) struct Style {
    pub fill: &'static [u8],
    pub stroke: &'static [u8],
    pub width: &'static [u8],
    pub dashes: &'static [u8],
}

impl Style {
    /// Returns the style of an area in one colour, without a border.
    pub(crate) fn plain(fill: &'static [u8]) -> Style
        ensures width { result.width.now ≡ codes "0" }
        ensures dashes { result.dashes.now ≡ through }
    {
        Style::bordered(fill, b"none", b"0")
    }

    /// Returns the style of an area with a border.
    pub(crate) fn bordered(
        fill: &'static [u8],
        stroke: &'static [u8],
        width: &'static [u8],
    ) -> Style
        ensures width { result.width.now ≡ width.now }
        ensures dashes { result.dashes.now ≡ through }
    {
        Style {
            fill,
            stroke,
            width,
            dashes: b"none",
        }
    }

    /// Returns the style of a solid line.
    pub(crate) fn line(stroke: &'static [u8], width: &'static [u8]) -> Style
        ensures { result.dashes.now ≡ through }
    {
        Style::bordered(b"none", stroke, width)
    }

    /// Returns the style of a message's line: dashed if the message is taken again.
    pub(crate) fn message(again: bool) -> Style
        ensures { result.dashes.now ≡ message_dashes again }
    {
        Style {
            dashes: if again { b"6 4" } else { b"none" },
            ..Style::line(MESSAGE, b"1.5")
        }
    }

    /// Returns the style of a row's box.
    pub(crate) fn row(kind: Kind) -> Style
        ensures width { result.width.now ≡ row_border kind }
        ensures dashes { result.dashes.now ≡ row_dashes kind }
    {
        match kind {
            Kind::Act => Style::bordered(GROUND, INK, b"1"),
            Kind::Wait => Style {
                dashes: b"3 3",
                ..Style::bordered(b"#dedede", INK, b"1.5")
            },
            Kind::Message => Style::bordered(b"#eef4fa", b"#a8bccf", b"1"),
            Kind::Trap => Style::bordered(b"#ffdcc8", RACE, b"3"),
            Kind::Barrier => Style::bordered(b"#d9cdf2", b"#4b2f90", b"2"),
        }
    }
}

/// Whether words begin or end at their point.
#[derive(Clone, Copy)]
pub(crate) enum Anchor {
    Start,
    End,
}

impl Anchor {
    /// Returns the anchor as SVG spells it.
    #[tactic(auto, unfolding(crate::specs::Attributes::anchor_word))]
    pub(crate) fn word(self) -> &'static [u8]
        ensures { result.now ≡ anchor_word self }
    {
        match self {
            Anchor::Start => b"start",
            Anchor::End => b"end",
        }
    }
}

/// The style of words.
#[derive(Clone, Copy)]
pub(crate) struct Hand {
    pub anchor: Anchor,
    pub colour: &'static [u8],
    pub weight: &'static [u8],
}

impl Hand {
    /// Returns the style of words that begin at their point.
    pub(crate) fn plain(colour: &'static [u8]) -> Hand
        ensures { result.anchor ≡ Start }
    {
        Hand::anchored(Anchor::Start, colour)
    }

    /// Returns the style of words that begin or end at their point.
    pub(crate) fn anchored(anchor: Anchor, colour: &'static [u8]) -> Hand
        ensures { result.anchor ≡ anchor }
    {
        Hand {
            anchor,
            colour,
            weight: b"normal",
        }
    }

    /// Returns the style of a name.
    pub(crate) fn bold() -> Hand
        ensures { result.anchor ≡ Start }
    {
        Hand {
            weight: b"bold",
            ..Hand::plain(INK)
        }
    }
}

/// The colours of words, of the line and interval beside them, of times, of messages, of pages that become invalid, and
/// of races.
pub(crate) const INK: &[u8] = b"#1a1a1a";

pub(crate) const PALE: &[u8] = b"#5a5a5a";

pub(crate) const TIME: &[u8] = b"#1d6b35";

pub(crate) const MESSAGE: &[u8] = b"#1f5f9f";

pub(crate) const INVALID: &[u8] = b"#a04800";

pub(crate) const RACE: &[u8] = b"#c80000";
/// The colours of the background, of the borders and heads of columns, and of barrier bands and their borders.
pub(crate) const GROUND: &[u8] = b"#ffffff";

pub(crate) const LANE: &[u8] = b"#b4b4b4";

pub(crate) const HEAD: &[u8] = b"#e4e4e4";

pub(crate) const BAND: &[u8] = b"#ebe4f8";

pub(crate) const EDGE: &[u8] = b"#b9a8e0";
