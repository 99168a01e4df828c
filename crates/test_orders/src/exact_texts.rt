// Outcomes of exact runs, as they are printed.

use crate::checks::passes;
use lrc_exact_judge::layout::Layout;
use lrc_exact_text::events::exact_events_told;
use lrc_exact_text::listed::exact_outcomes_told;
use lrc_exact_text::one::exact_run_told;
use lrc_lang::parse;
use lrc_page::Size;
use lrc_setting::setting::{Nodes, Setting, Steps};
use std::alloc::Global;

/// How the exact memory of two nodes is laid out.
const PAIR: Layout = Layout {
    nodes: 2,
    page_words: 64,
    collect: 0,
};

/// What the runs of two nodes are made with.
const SETTING: Setting = Setting {
    nodes: Nodes { count: 2 },
    steps: Steps { count: 1_000_000 },
    collect: 0,
    size: Size::Words64,
    first: 0,
};

/// A program of which no order races, and whose orders may spin for ever.
const SPINS: &[u8] =
    b"words 2; locks 1; if me == 0 { [1] = 42; acquire 0; [0] = 1; release 0; } if me == 1 { while x == 0 { acquire 0; x = [0]; release 0; } y = [1]; print y; }";

/// A program that races.
const RACES: &[u8] = b"words 2; locks 0; [me] = 1; x = [1 - me]; print x;";

/// Whether the outcomes of a program are told by this text.
fn is_told(alloc: Global, text: &[u8], tries: Option<u32>, wanted: &[u8]) -> bool {
    let Ok(program) = parse(alloc, text) else {
        return false;
    };
    match exact_outcomes_told(alloc, &program, &SETTING, 1000, tries) {
        Ok(parts) => {
            let mut rest = wanted;
            for part in &parts {
                match rest.strip_prefix(part.as_slice()) {
                    Some(more) => rest = more,
                    None => return false,
                }
            }
            rest.is_empty()
        }
        Err(_) => false,
    }
}

/// Whether a run is told of the outcome with this number.
fn has_run(alloc: Global, text: &[u8], number: u64) -> bool {
    let Ok(program) = parse(alloc, text) else {
        return false;
    };
    let lines = [1; 20];
    if number < 1 {
        return false;
    }
    matches!(
        exact_run_told(alloc, &program, &lines, PAIR, 1000, number),
        Ok(Some(_))
    )
}

#[test]
fn outcomes_told(rt: HostRuntime) {
    let alloc = rt.alloc();
    let spins = is_told(
        alloc,
        SPINS,
        None,
        b"outcomes 1 in all exact runs\nnode 0 ended / node 1 prints 42 / node 1 ended\n",
    );
    passes(&rt, if spins { None } else { Some("spins") });
    let races = is_told(
        alloc,
        RACES,
        None,
        b"outcomes 1 in all exact runs\nnode 0 prints 0 / node 0 ended / node 1 prints 0 / node 1 ended\n",
    );
    passes(&rt, if races { None } else { Some("races") });
    let seeded = is_told(
        alloc,
        RACES,
        Some(2),
        b"outcomes 1 in all exact runs\nnode 0 prints 0 / node 0 ended / node 1 prints 0 / node 1 ended # seed 0\n",
    );
    passes(&rt, if seeded { None } else { Some("seeded") });
}

/// A program whose two outcomes are told apart by which node acquires first.
const LOCKS: &[u8] = b"words 2; locks 1; [me] = 1; acquire 0; x = [1 - me]; release 0; print x;";

/// The events by which the nodes make the run with its second outcome.
const EVENTS: &[u8] =
    b"run 0\nrun 1\nrun 1\ndeliver 0\ndeliver 0\ndeliver 0\nrun 1\nrun 1\nrun 1\nrun 1\nrun 0\ndeliver 0\ndeliver 0\ndeliver 0\nrun 0\ndeliver 0\ndeliver 0\nrun 0\nrun 0\nrun 0\n";

#[test]
fn events_told(rt: HostRuntime) {
    let alloc = rt.alloc();
    let Ok(program) = parse(alloc, LOCKS) else {
        return passes(&rt, Some("text"));
    };
    let told = exact_events_told(alloc, &program, &SETTING, 1000, 2);
    let are = match &told {
        Ok(Some(text)) => text.as_slice() == EVENTS,
        _ => false,
    };
    passes(&rt, if are { None } else { Some("events") });
    let none = matches!(
        exact_events_told(alloc, &program, &SETTING, 1000, 3),
        Ok(None)
    );
    passes(&rt, if none { None } else { Some("no events") });
}

#[test]
fn runs_told(rt: HostRuntime) {
    let alloc = rt.alloc();
    let found = has_run(alloc, SPINS, 1) && has_run(alloc, RACES, 1);
    passes(
        &rt,
        if found {
            None
        } else {
            Some("the first outcome")
        },
    );
    let more = has_run(alloc, SPINS, 2) || has_run(alloc, RACES, 2);
    passes(&rt, if more { Some("a second outcome") } else { None });
}
