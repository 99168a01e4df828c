// Items: shared words, locks, and arrays of them.

ghost use Rattle.std.specs.Prelude.{◌≡◌, ◌≤◌, ◌+◌};
ghost use Rattle.lrc_named_names.specs.Elements.{elements};

/// A shared word, a lock, or an array of them.
#[derive(Drop)]
pub struct Item {
    /// The number of its first word or lock.
    pub first: u32,
    /// The size for each index: none of a word or lock alone.
    pub sizes: Vec<u32>,
    /// How many words or locks it has.
    pub count: u32,
    pub ghost counted: { count ≡ elements sizes.items },
    pub ghost some: { 1 ≤ count },
    pub ghost few: { first + count ≤ 65536 },
}
