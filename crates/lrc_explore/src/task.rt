// What is searched, and what was found.

ghost use Rattle.lrc_explore.specs.Reached.{IsMeansOf};

use lrc_exec::spot::Flat;
use lrc_orders_settling::step::Step;
use lrc_orders_table::known::Means;
use lrc_orders_table::table::Table;
use lrc_program::Program;

/// The task of a search: a program, its code and the place where the code begins, the names that matter at each place,
/// the limit on the number of states, the limit on a thread's free acts to look at, and whether notes are kept.
#[derive(Drop)]
pub struct Task<'c> {
    pub program: &'c Program,
    pub flat: Flat<'c>,
    pub start: usize,
    pub live: Vec<[bool; 32]>,
    pub most: usize,
    pub looked: u64,
    pub noting: bool,
}

impl Task<'_> {
    /// Returns what steps from rows are taken by.
    pub(crate) fn means(&self) -> Means<'_>
        ensures { IsMeansOf self.now result }
    {
        Means {
            flat: self.flat,
            live: &self.live,
            looked: self.looked,
            noting: self.noting,
        }
    }
}

/// How a state was found: from which state, and by which step.
#[derive(Clone, Copy)]
pub struct Origin {
    pub parent: usize,
    pub step: Step,
}

/// The states found, each once, in the order of finding, with what is known of the steps of their threads, and how each
/// was found.
#[derive(Drop)]
pub struct Found {
    pub table: Table,
    pub origins: Vec<Origin>,
}

/// Where a node traps: as the program's start settles, or in a step from a state that was found.
#[derive(Clone, Copy)]
pub enum Trapping {
    Start,
    Step(Origin),
}

/// Where a search ended: at a state where two nodes meet, or past all states, with the first state at which the program
/// is stuck, if any, and where a node traps first, if one does.
#[derive(Clone, Copy)]
pub enum End {
    Meeting {
        place: usize,
        p: usize,
        q: usize,
    },
    Through {
        stuck: Option<usize>,
        trap: Option<Trapping>,
    },
}

/// Where a search ended: as `End` says; or with more states than may be or where some node computes too long, and then
/// it tells the first of the states found at which the program is stuck, if any, and where a node traps first on the
/// way to them, if one does.
#[derive(Clone, Copy)]
pub enum Sought {
    Ended(End),
    Many {
        stuck: Option<usize>,
        trap: Option<Trapping>,
    },
}

/// What came of a step from a state: whether a node traps in it, if it can be taken; or some node computes too long.
#[derive(Clone, Copy)]
pub enum Stepped {
    Past(bool),
    Long,
}

/// What came of the steps from a state: all were looked at, or in one of them some node computes too long; and the
/// first before it in which a node traps, if any.
#[derive(Clone, Copy)]
pub enum Steps {
    All(Option<Step>),
    Cut(Option<Step>),
}

/// What a visit to a state saw: two nodes that meet; or whether the program is stuck there, and the first step from it
/// in which a node traps, if any; or that in a step from it some node computes too long, and the first before it in
/// which a node traps, if any.
#[derive(Clone, Copy)]
pub enum Visit {
    Meeting(usize, usize),
    Past { stuck: bool, trap: Option<Step> },
    Cut { trap: Option<Step> },
}
