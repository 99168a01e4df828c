// What a line of a trace says, with the names as they stand on it.

/// What the word of an operation means.
#[derive(Clone, Copy, PartialEq, Eq)]
pub enum Kind {
    /// `r`
    Read,
    /// `w`
    Write,
    /// `acq`
    Acquire,
    /// `rel`
    Release,
    /// `post`
    Post,
    /// `wait`
    Wait,
    /// `fork`
    Fork,
    /// `join`
    Join,
    /// `arrive`
    Arrive,
    /// `depart`
    Depart,
    /// `begin`, `end`, `enter`, `exit`, `req` or `branch`
    Idle,
}

/// An event with the names on its line. The names are parts of the line.
#[derive(Clone, Copy)]
pub struct Named<'a> {
    /// The thread.
    pub thread: &'a [u8],
    /// What the thread does.
    pub kind: Kind,
    /// The target of the operation; empty for an idle event.
    pub target: &'a [u8],
    /// The location in the thread's program; empty if the line gives none.
    pub location: &'a [u8],
}

/// What a line says.
#[derive(Clone, Copy)]
pub enum Line<'a> {
    /// Nothing: the line is empty or a comment.
    Nothing,
    /// An event.
    Event(Named<'a>),
    /// The line has neither form.
    Bad,
}
