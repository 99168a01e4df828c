// Labels, and why a label line says nothing.

/// What a label names.
#[derive(Clone, Copy)]
pub enum Target {
    /// `word W NAME`: this word.
    Word(u32),
    /// `words W V NAME`: the words from the first to the last.
    Words(u32, u32),
    /// `lock K NAME`: this lock.
    Lock(u8),
    /// `locks K M NAME`: the locks from the first to the last.
    Locks(u8, u8),
}

/// A name for words or for locks. The name is given by the bytes of the text that spell it.
#[derive(Drop)]
pub struct Label<'t> {
    pub target: Target,
    pub name: &'t [u8],
    /// The sizes of an array by rows, without the first; none if an element has one index, or none.
    pub sizes: Vec<u32>,
}

/// Why a label line has no effect. The first reason that applies is given.
#[derive(Clone, Copy, PartialEq, Eq)]
pub enum Reason {
    /// It has none of the forms, or its sizes do not divide its words or locks into rows.
    AnotherForm,
    /// A word is not below the number of words, or the first word is above the last.
    NoSuchWord,
    /// A lock is not below the number of locks, or the first lock is above the last.
    NoSuchLock,
    /// An earlier label already names one of its words.
    WordTaken,
    /// An earlier label already names one of its locks.
    LockTaken,
    /// An earlier label already has its name.
    NameTaken,
}

/// A label line without effect: its line, counted from 1, the column of its `#`, in bytes from 1, and the reason.
#[derive(Clone, Copy)]
pub struct IdleLabel {
    pub line: usize,
    pub column: usize,
    pub reason: Reason,
}

/// The label lines of a text.
#[derive(Drop)]
pub struct Labels<'t> {
    /// The labels, in the order of the text.
    pub said: Vec<Label<'t>>,
    /// The label lines without effect, in the order of the text.
    pub idle: Vec<IdleLabel>,
}
