// How the memory is laid out, for how many nodes.

ghost use Rattle.std.specs.Prelude.{◌≤◌};

/// The number of nodes, the size of a page, and from how many intervals on a barrier collects.
#[derive(Clone, Copy)]
pub struct Layout {
    /// The number of nodes, 1 to 16.
    pub nodes: u8,
    /// The size of a page in words, at least 1.
    pub page_words: u32,
    /// How many intervals that a node holds make a barrier collect; 0 where none does.
    pub collect: u32,
    pub ghost some: { 1 ≤ nodes },
    pub ghost few: { nodes ≤ 16 },
    pub ghost sized: { 1 ≤ page_words },
}
