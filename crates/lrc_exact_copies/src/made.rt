// What closed intervals did.

/// A word that an interval changed, and the value to which it changed it.
#[derive(Clone, Copy)]
pub struct Change {
    pub word: u32,
    pub value: u64,
}

/// What a closed interval did.
#[derive(Drop)]
pub struct Made {
    /// One more than the number of intervals that its node knew as it closed it.
    pub weight: u64,
    /// Of each word that it changed the value. No word stands there with two values.
    pub changes: Vec<Change>,
    /// The pages that it wrote.
    pub pages: Vec<u32>,
}
