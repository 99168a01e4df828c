// Lines of words that ask for a search of all orders, and the choice that they make.

use crate::checks::passes;
use crate::words::{Row, Wanted, first_wrong};
use lrc_cli_args::choice::{Exploring, Memory, Tell};
use lrc_page::Size;

/// A memory whose runs are searched: of the exact one the size of its pages, and from how many intervals on it collects.
#[derive(Clone, Copy)]
pub enum Sought {
    Flat,
    Lazy,
    Exact(Size, u32),
}

/// A search, in plain numbers.
#[derive(Clone, Copy)]
pub struct Search {
    file: &'static str,
    nodes: u32,
    most: u32,
    memory: Sought,
    outcomes: bool,
    outcome: Option<u64>,
    tries: Option<u32>,
    ignores_races: bool,
    ends: bool,
    events: Option<Tell>,
}

fn is_same_memory(made: Memory, wanted: Sought) -> bool {
    match (made, wanted) {
        (Memory::Flat, Sought::Flat) | (Memory::Lazy, Sought::Lazy) => true,
        (Memory::Exact(made), Sought::Exact(size, collect)) => {
            made.size == size && made.collect.count == collect
        }
        _ => false,
    }
}

fn is_same_tell(made: Option<Tell>, wanted: Option<Tell>) -> bool {
    matches!(
        (made, wanted),
        (None, None)
            | (Some(Tell::First), Some(Tell::First))
            | (Some(Tell::Stuck), Some(Tell::Stuck))
            | (Some(Tell::Trap), Some(Tell::Trap))
            | (Some(Tell::End), Some(Tell::End))
    )
}

/// Whether the words ask for this search.
pub fn is_wanted_search(made: &Exploring<'_>, wanted: &Search) -> bool {
    made.file == wanted.file
        && made.nodes.count == wanted.nodes
        && made.most.count == wanted.most
        && is_same_memory(made.memory, wanted.memory)
        && made.outcomes == wanted.outcomes
        && made.outcome.map(|outcome| outcome.number) == wanted.outcome
        && made.tries.map(|tries| tries.count) == wanted.tries
        && made.ignores_races == wanted.ignores_races
        && made.ends == wanted.ends
        && is_same_tell(made.events, wanted.events)
}

/// A search of this file, as it is without options.
const A_SEARCH: Search = Search {
    file: "a.tm",
    nodes: 1,
    most: 1_000_000,
    memory: Sought::Flat,
    outcomes: false,
    outcome: None,
    tries: None,
    ignores_races: false,
    ends: false,
    events: None,
};

const LISTED: Search = Search {
    outcomes: true,
    ..A_SEARCH
};

const EVENTS: Search = Search {
    events: Some(Tell::First),
    ..A_SEARCH
};

const SEARCHES: &[Row] = &[
    ("explore a.tm", Wanted::Explore(A_SEARCH)),
    (
        "explore a.tm --nodes=3 --most=7 --outcomes",
        Wanted::Explore(Search {
            nodes: 3,
            most: 7,
            ..LISTED
        }),
    ),
    (
        "explore a.tm --memory lazy",
        Wanted::Explore(Search {
            memory: Sought::Lazy,
            ..A_SEARCH
        }),
    ),
    (
        "explore a.tm --memory=lazy --outcomes --tries 50",
        Wanted::Explore(Search {
            memory: Sought::Lazy,
            tries: Some(50),
            ..LISTED
        }),
    ),
    (
        "explore a.tm --ends",
        Wanted::Explore(Search {
            ends: true,
            ..A_SEARCH
        }),
    ),
    (
        "explore a.tm --ends --ignore-races",
        Wanted::Explore(Search {
            ends: true,
            ignores_races: true,
            ..A_SEARCH
        }),
    ),
    // The exact memory.
    (
        "explore a.tm --memory exact",
        Wanted::Explore(Search {
            memory: Sought::Exact(Size::Words64, 0),
            ..A_SEARCH
        }),
    ),
    (
        "explore a.tm --memory exact --outcomes --tries 5",
        Wanted::Explore(Search {
            memory: Sought::Exact(Size::Words64, 0),
            tries: Some(5),
            ..LISTED
        }),
    ),
    (
        "explore a.tm --memory exact --outcome 1 --as events",
        Wanted::Explore(Search {
            memory: Sought::Exact(Size::Words64, 0),
            outcome: Some(1),
            ..EVENTS
        }),
    ),
    (
        "explore a.tm --memory=exact --outcomes --collect 1000000",
        Wanted::Explore(Search {
            memory: Sought::Exact(Size::Words64, 1_000_000),
            ..LISTED
        }),
    ),
    (
        "explore --page=256 a.tm --outcome 2 --memory exact --collect=7",
        Wanted::Explore(Search {
            memory: Sought::Exact(Size::Words256, 7),
            outcome: Some(2),
            ..A_SEARCH
        }),
    ),
    // The events of an order.
    ("explore a.tm --as events", Wanted::Explore(EVENTS)),
    (
        "explore a.tm --as=events --memory flat --tell stuck",
        Wanted::Explore(Search {
            events: Some(Tell::Stuck),
            ..A_SEARCH
        }),
    ),
    (
        "explore a.tm --tell=trap --ends --as events",
        Wanted::Explore(Search {
            events: Some(Tell::Trap),
            ends: true,
            ..A_SEARCH
        }),
    ),
    (
        "explore a.tm --ends --as events --tell end",
        Wanted::Explore(Search {
            events: Some(Tell::End),
            ends: true,
            ..A_SEARCH
        }),
    ),
    (
        "explore a.tm --outcome 2 --as events",
        Wanted::Explore(Search {
            outcome: Some(2),
            ..EVENTS
        }),
    ),
    (
        "explore a.tm --outcomes --outcome 2 --as events",
        Wanted::Explore(Search {
            outcomes: true,
            outcome: Some(2),
            ..EVENTS
        }),
    ),
];

#[test]
fn words_ask_for_searches(rt: HostRuntime) {
    passes(&rt, first_wrong(rt.alloc(), SEARCHES));
}
