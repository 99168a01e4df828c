// The exact memory that acts are held against.

ghost use Rattle.std.specs.Prelude.{◌≤◌};

/// An exact memory, for any number of nodes.
#[derive(Clone, Copy)]
pub struct ExactMemory {
    /// The size of a page in words, at least 1.
    pub page_words: u32,
    /// How many intervals that a node holds make a barrier collect; 0 where none does.
    pub collect: u32,
    pub ghost sized: { 1 ≤ page_words },
}
