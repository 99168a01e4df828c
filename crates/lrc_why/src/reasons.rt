// The reasons of an act as data: positions of acts, words and values.

use lrc_trace::act::Cause;

/// Since when a node knows a position.
#[derive(Drop)]
pub struct Since {
    /// The node's first act that knows it.
    pub first: usize,
    /// The least of the shortest chains from the position to that act.
    pub chain: Vec<usize>,
}

/// Known writes of which two race.
#[derive(Drop)]
pub struct Several {
    /// The two that race with the least later one, and among these the least earlier one.
    pub earlier: usize,
    pub later: usize,
    /// What the read may give, ascending.
    pub values: Vec<u64>,
    /// The writes that happen before no other known one.
    pub last: Vec<usize>,
}

/// The writes that determine what a read may give.
#[derive(Drop)]
pub enum Source {
    /// No write to the word is known.
    Nothing,
    /// The known writes are in order, and this is the last of them. If another node made it, also since when it is
    /// known.
    Last(usize, Option<Since>),
    /// Two of the known writes race.
    Racing(Several),
}

/// What a read gives.
#[derive(Drop)]
pub struct Gift {
    /// Whether the read may give the value that it gives.
    pub allowed: bool,
    pub source: Source,
    /// The last write to the word before the read, if it is not known there.
    pub unknown: Option<usize>,
}

/// What an act is about.
#[derive(Drop)]
pub enum About {
    /// A deed about which nothing more is said.
    Nothing,
    Trapped(Cause),
    Gives(Gift),
    /// The last release of the lock before the acquire, if there is one.
    Follows(Option<usize>),
    /// The number of the barrier at which the node arrives, counted from 1.
    Comes(usize),
    /// The number of the barrier from which the node departs, counted from 1.
    GoesOn(usize),
}

/// Which locks an act's node holds at it, and how often the node has departed from a barrier.
#[derive(Drop)]
pub struct Standing {
    /// The locks, ascending.
    pub locks: Vec<u8>,
    pub departs: usize,
}

/// Why the earlier of two acts of two nodes does not happen before the later.
#[derive(Drop)]
pub struct Parting {
    pub earlier: usize,
    pub later: usize,
    /// The last act of the earlier act's node that the later act knows, if there is one.
    pub known: Option<usize>,
}

/// The acts of another node that race with an act.
#[derive(Drop)]
pub struct Opponent {
    /// The acts, ascending. There is at least one.
    pub racing: Vec<usize>,
    /// Why the act and the first of these are not ordered.
    pub parting: Parting,
    pub first: Standing,
    pub second: Standing,
}

/// What an act brings of a node.
#[derive(Drop)]
pub struct Brought {
    /// The node's acts that are known at this act, but at no earlier act of this act's node, ascending.
    pub acts: Vec<usize>,
    /// The words that they write, ascending.
    pub words: Vec<u32>,
}

/// What is known of a node.
#[derive(Drop)]
pub struct News {
    /// The last act of the node that is known.
    pub last: usize,
    /// Since when the acting node knows it.
    pub since: Since,
    /// What is new, if this act is the first that knows it.
    pub brought: Option<Brought>,
}

/// Which nodes learn of an act.
#[derive(Drop)]
pub struct Spread {
    /// The first release or arrive of the act's node, from the act on.
    pub from: usize,
    /// For each other node that gets to know the act, its first act that knows it.
    pub learners: Vec<Option<Since>>,
    /// The other nodes that never do, ascending.
    pub never: Vec<u8>,
}

/// Who learns of an act.
#[derive(Drop)]
pub enum Forward {
    /// Nothing is said: the deed is no write, release or arrive, or there is no other node.
    Unsaid,
    /// Nobody learns of it: from it on, its node releases no lock and arrives at no barrier.
    Nobody,
    Others(Spread),
}

/// The reasons of an act.
#[derive(Drop)]
pub struct Reasons {
    pub about: About,
    /// For each other node with acts that race with this one, these acts.
    pub opponents: Vec<Option<Opponent>>,
    /// For each node, how many of the acts that close its intervals are known at this one or are this one.
    pub time: Vec<usize>,
    /// The words that the node writes in the interval that this act closes, ascending; none if it closes none.
    pub words: Vec<u32>,
    /// For each other node of which something is known, what is known.
    pub news: Vec<Option<News>>,
    /// The other nodes of which nothing is known, ascending.
    pub unknown: Vec<u8>,
    pub forward: Forward,
}

/// How two acts are ordered.
#[derive(Drop)]
pub enum Relation {
    /// Both are of one node.
    SameNode,
    /// The earlier happens before the later, by this chain.
    Before(Vec<usize>),
    /// Neither happens before the other, and they do not race.
    Apart(Parting),
    /// They race. Also what each one's node holds at it, the earlier first.
    Race(Parting, Standing, Standing),
}
