// The parts of a picture. Where a part names a row, it is by the row's place among the rows that are shown: from 0, from the top.

/// What a row's turn did.
#[derive(Clone, Copy, Debug, PartialEq, Eq)]
pub enum Kind {
    /// An act.
    Act,
    /// The node began to wait.
    Wait,
    /// The node only took or sent messages.
    Message,
    /// An act that trapped.
    Trap,
    /// The node reached a barrier or left one.
    Barrier,
}

/// A turn, or in a chart of acts alone, an act.
#[derive(Drop)]
pub struct Row {
    /// Its number: its place among the rows of the part, from 0, with the hidden rows counted.
    pub number: usize,
    /// The column of its node.
    pub column: u8,
    pub kind: Kind,
    /// What was done.
    pub words: Vec<u8>,
    /// The node's vector time, if it differs from the time at the node's act shown before.
    pub time: Vec<u8>,
    /// The pages that became invalid, such as `page 0 invalid`, or nothing if none did.
    pub invalid: Vec<u8>,
    /// The line and the interval.
    pub place: Vec<u8>,
    /// What a reader sees when the pointer is on it.
    pub hint: Vec<u8>,
    /// Whether it closed an interval.
    pub closes: bool,
    /// Whether its node is in a circle of waiting, and this is the node's last row that has an act or where the node
    /// begins to wait.
    pub circled: bool,
}

/// A message that was taken, or in a chart of acts alone, a lock that one node released and another acquired.
#[derive(Drop)]
pub struct Arrow {
    /// The row and the column of the turn that sent the message, or of the release.
    pub from: usize,
    pub sender: u8,
    /// The row and the column of the turn that took it, or of the acquire.
    pub to: usize,
    pub receiver: u8,
    /// Whether it was taken before.
    pub again: bool,
    /// The kind of the message, or the lock.
    pub label: Vec<u8>,
    /// What a reader sees when the pointer is on it.
    pub hint: Vec<u8>,
}

/// A message that was never taken.
#[derive(Drop)]
pub struct Lost {
    /// The row and the column of the turn that sent it.
    pub from: usize,
    pub sender: u8,
    /// The column of the node that it was sent to.
    pub receiver: u8,
    /// Its kind.
    pub label: Vec<u8>,
    /// What a reader sees when the pointer is on it.
    pub hint: Vec<u8>,
}

/// A barrier, from the row of the first node that reached it to the row of the last node that left it.
#[derive(Drop)]
pub struct Band {
    pub from: usize,
    pub to: usize,
    pub label: Vec<u8>,
}

/// A group of races, shown by two acts that race.
#[derive(Drop)]
pub struct Race {
    /// Its number among all groups of the run, counted from 1, in the order of `explain`.
    pub number: usize,
    /// The row and the column of the earlier act.
    pub from: usize,
    pub first: u8,
    /// The row and the column of the later act.
    pub to: usize,
    pub second: u8,
    /// The group in words.
    pub label: Vec<u8>,
    /// What a reader sees when the pointer is on it.
    pub hint: Vec<u8>,
}

/// A line of the program's text.
#[derive(Drop)]
pub struct SourceLine {
    /// The line's text, without its line end.
    pub words: Vec<u8>,
    /// Whether an act of a row that is shown has this line.
    pub marked: bool,
}

/// A picture of a run, or of acts alone.
#[derive(Drop)]
pub struct Picture {
    /// The command that made the picture.
    pub title: Vec<u8>,
    /// The names of the columns.
    pub columns: Vec<Vec<u8>>,
    pub rows: Vec<Row>,
    pub arrows: Vec<Arrow>,
    pub lost: Vec<Lost>,
    pub bands: Vec<Band>,
    pub races: Vec<Race>,
    /// The circles of waiting, in the words of `explain`.
    pub deadlocks: Vec<Vec<u8>>,
    /// The lines of the program's text, from line 1; none if the text is not shown.
    pub source: Vec<SourceLine>,
}
