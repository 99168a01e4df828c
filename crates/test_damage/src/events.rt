// Random events: what comes of them is well synchronized and reads lazily, as a judge of the acts alone says, which finds
// the races that the run found.

use crate::checks::holds;
use crate::random::Random;
use lrc_acts_text::acts_part;
use lrc_judge_text::judge::judge;
use lrc_lang::parse;
use lrc_node::Options;
use lrc_page::Size;
use lrc_program::Program;
use lrc_protocol::Event;
use lrc_text::{first_race_part, races_part};
use lrc_trace::act::Act;
use lrc_trace::race::Race;
use lrc_world::report::Report;
use lrc_world::simulate::simulate;
use std::alloc::{AllocError, Global};

const COUNTER: &[u8] =
    b"words 2; locks 1; i = 0; while i < 2 { acquire 0; x = [0]; [0] = x + 1; release 0; i = i + 1; }
    [1] = me; barrier; y = [0]; print y;";

const SHARING: &[u8] =
    b"words 130; locks 2; [me] = 1; [64 + me] = 2; barrier; x = [0]; acquire 1; [128] = x; release 1;
    barrier; y = [65]; z = [128]; print y + z;";

const OPTIONS: [Options; 2] = [
    Options {
        steps: 40,
        collect: 0,
        first: 4_294_967_000,
        size: Size::Words256,
    },
    Options {
        steps: 1000,
        collect: 2,
        first: 0,
        size: Size::Words64,
    },
];

fn event_of(random: &mut Random) -> Event {
    let place = random.below(4) as u32;
    match random.below(8) {
        0 | 1 | 2 => Event::Run(place),
        3 => Event::Repeat(place),
        _ => Event::Deliver(place % 3),
    }
}

fn push_events(
    events: &mut Vec<Event>,
    random: &mut Random,
    count: usize,
) -> Result<(), AllocError> {
    for _ in 0..count {
        events.push(event_of(random))?;
    }
    Ok(())
}

fn join(text: &mut Vec<u8>, parts: &[Vec<u8>]) -> Result<(), AllocError> {
    for part in parts {
        text.extend_from_slice(part)?;
    }
    Ok(())
}

/// Adds what a judge says of acts of three nodes, each of line 1, which are this text; and answers whether he says something.
fn is_judged(alloc: Global, text: &[u8], said: &mut Vec<u8>) -> bool {
    match judge(alloc, text, Some(3), None) {
        Ok(printout) => join(said, &printout.parts).is_ok(),
        Err(_) => false,
    }
}

/// The same of these acts, of which there are as many as lines.
fn are_judged_at(alloc: Global, acts: &[Act], lines: &[u32], said: &mut Vec<u8>) -> bool {
    if lines.len() != acts.len() {
        return false;
    }
    match acts_part(alloc, acts, lines) {
        Ok(text) => is_judged(alloc, &text, said),
        Err(_) => false,
    }
}

fn are_judged(alloc: Global, acts: &[Act], said: &mut Vec<u8>) -> bool {
    match vec![in alloc; 1u32; acts.len()] {
        Ok(lines) => are_judged_at(alloc, acts, &lines, said),
        Err(_) => false,
    }
}

/// Whether this is what a judge has to say up to the first race: the first two lines, and the races, whatever the reads in order
/// are.
fn tells_races(alloc: Global, before: &[u8], races: &[Race]) -> bool {
    match races_part(alloc, races) {
        Ok(part) => {
            before.ends_with(part.as_slice())
                && before.starts_with(b"well synchronized\nreads lazily\n")
        }
        Err(_) => false,
    }
}

/// Whether this is all that a judge has to say.
fn tells(alloc: Global, said: &[u8], races: &[Race], first_race: Option<usize>) -> bool {
    let Ok(first) = first_race_part(alloc, first_race) else {
        return false;
    };
    match said.strip_suffix(first.as_slice()) {
        Some(before) => tells_races(alloc, before, races),
        None => false,
    }
}

/// Whether what a judge says of a run is what he has to say.
fn is_as_judged(alloc: Global, report: &Report) -> bool {
    let mut said = Vec::new(alloc);
    are_judged(alloc, &report.acts, &mut said)
        && tells(alloc, &said, &report.races, report.first_race)
}

fn is_played(alloc: Global, program: &Program, options: &Options, events: &[Event]) -> bool {
    match simulate(alloc, program, 3, options, events) {
        Ok(report) => is_as_judged(alloc, &report),
        Err(_) => false,
    }
}

fn is_fine(alloc: Global, program: &Program, random: &mut Random, options: &Options) -> bool {
    let count = 100 + random.below(300);
    let mut events = Vec::new(alloc);
    push_events(&mut events, random, count).is_ok() && is_played(alloc, program, options, &events)
}

/// Whether so many runs of each of the options are fine.
fn each_is_fine(alloc: Global, program: &Program, seed: u64, count: u32) -> bool {
    let mut random = Random::new(seed);
    for _ in 0..count {
        for options in &OPTIONS {
            if !is_fine(alloc, program, &mut random, options) {
                return false;
            }
        }
    }
    true
}

fn are_fine(alloc: Global, text: &[u8], seed: u64, count: u32) -> bool {
    match parse(alloc, text) {
        Ok(program) => each_is_fine(alloc, &program, seed, count),
        Err(_) => false,
    }
}

#[test]
fn runs_of_random_events_are_as_they_are_judged(rt: HostRuntime) {
    holds(&rt, are_fine(rt.alloc(), COUNTER, 3, 60));
    holds(&rt, are_fine(rt.alloc(), SHARING, 4, 60));
}
