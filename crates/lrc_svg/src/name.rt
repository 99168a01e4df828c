// The names of elements and attributes.

ghost use Rattle.std.specs.Prelude.{◌≡◌};
ghost use Rattle.lrc_svg.specs.Names.{key_word, tag_word};

/// The elements that a picture can have.
#[derive(Clone, Copy)]
pub enum Tag {
    /// A whole picture.
    Picture,
    /// What a reader sees when the pointer is on the element around it.
    Hint,
    /// Elements that share their attributes.
    Group,
    /// A box.
    Box,
    /// A straight line.
    Line,
    /// A line through points.
    Path,
    /// A word or more.
    Label,
}

/// The attributes that elements can have. Lengths are in pixels.
#[derive(Clone, Copy)]
pub enum Key {
    /// The name space of the elements.
    Space,
    /// The part of the plane that is shown.
    View,
    Width,
    Height,
    /// The distance of a box or a label from the left.
    X,
    /// The distance of a box, or of a label's foot, from the top.
    Y,
    /// Where a line begins and ends.
    FromX,
    FromY,
    ToX,
    ToY,
    /// The points of a path.
    Points,
    /// The colour of an area, and that of a line.
    Fill,
    Stroke,
    StrokeWidth,
    /// The lengths of a line's dashes.
    Dashes,
    /// The font of labels.
    Family,
    FontSize,
    Weight,
    /// Whether a label begins, has its middle or ends at its place.
    Anchor,
}

impl Tag {
    /// Returns the name as the text has it.
    #[tactic(auto, unfolding(crate::specs::Names::tag_word))]
    pub(crate) fn word(self) -> &'static [u8]
        ensures { result.now ≡ tag_word self }
    {
        match self {
            Tag::Picture => b"svg",
            Tag::Hint => b"title",
            Tag::Group => b"g",
            Tag::Box => b"rect",
            Tag::Line => b"line",
            Tag::Path => b"path",
            Tag::Label => b"text",
        }
    }
}

impl Key {
    /// Returns the name as the text has it.
    #[tactic(auto, unfolding(crate::specs::Names::key_word))]
    pub(crate) fn word(self) -> &'static [u8]
        ensures { result.now ≡ key_word self }
    {
        match self {
            Key::Space => b"xmlns",
            Key::View => b"viewBox",
            Key::Width => b"width",
            Key::Height => b"height",
            Key::X => b"x",
            Key::Y => b"y",
            Key::FromX => b"x1",
            Key::FromY => b"y1",
            Key::ToX => b"x2",
            Key::ToY => b"y2",
            Key::Points => b"d",
            Key::Fill => b"fill",
            Key::Stroke => b"stroke",
            Key::StrokeWidth => b"stroke-width",
            Key::Dashes => b"stroke-dasharray",
            Key::Family => b"font-family",
            Key::FontSize => b"font-size",
            Key::Weight => b"font-weight",
            Key::Anchor => b"text-anchor",
        }
    }
}
