// What a write notice is known by.

ghost use Rattle.std.specs.Prelude.{◌≡◌};
ghost use Rattle.lrc_store.specs.Lists.{is_of_one};

/// The key of a write notice. The notice says that the node wrote the page in its interval with this index.
#[derive(Clone, Copy, Debug, PartialEq, Eq, PartialOrd, Ord, Hash)]
pub struct Key {
    pub node: u8,
    pub index: u32,
    pub page: u16,
}

impl Key {
    /// Returns whether the two notices are of the same interval.
    pub(crate) fn is_of_one_with(self, other: Key) -> bool
        ensures { result ≡ is_of_one self other }
    {
        self.node == other.node && self.index == other.index
    }
}
