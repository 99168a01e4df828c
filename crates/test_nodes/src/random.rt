// The first numbers of the random order, as its first events show them.

use crate::checks::holds;
use lrc_lang::parse;
use lrc_node::Options;
use lrc_page::Size;
use lrc_program::Program;
use lrc_protocol::Event;
use lrc_world::report::SimFault;
use lrc_world::simulate::wander;
use std::alloc::Global;

// Each node goes on by itself for more than three turns, so until then as many events may come next as there are nodes.
const ALONE: &[u8] = b"words 1; locks 0; x = 1; x = 2; x = 3; x = 4;";

// The first three numbers of SplitMix64 with the state 0 (Steele, Lea and Flood 2014), as Vigna's C code prints them.
const FIRST: [u64; 3] = [
    16_294_208_416_658_607_535,
    7_960_286_522_194_355_700,
    487_617_019_471_545_679,
];

const OPTIONS: Options = Options {
    steps: 1000,
    collect: 0,
    first: 0,
    size: Size::Words64,
};

/// Whether the first events name the nodes at which these numbers point, of so many.
fn are_pointed_at(events: &[Event], nodes: u32) -> bool {
    events.len() > FIRST.len()
        && events.iter().zip(&FIRST).all(|(event, number)| *event
            == Event::Run((*number % u64::from(nodes.max(1))) as u32))
}

fn is_begun(alloc: Global, program: &Program, nodes: u32) -> Result<bool, SimFault> {
    let (events, _) = wander(alloc, program, nodes, &OPTIONS, 0)?;
    Ok(are_pointed_at(&events, nodes))
}

/// Whether so it is of 1 to 16 nodes.
fn are_begun(alloc: Global, program: &Program) -> bool {
    for nodes in 1..17 {
        if is_begun(alloc, program, nodes) != Ok(true) {
            return false;
        }
    }
    true
}

fn is_random(alloc: Global) -> bool {
    match parse(alloc, ALONE) {
        Ok(program) => are_begun(alloc, &program),
        Err(_) => false,
    }
}

#[test]
fn a_random_order_begins_with_the_first_numbers_of_its_generator(rt: HostRuntime) {
    holds(&rt, "a node by itself", is_random(rt.alloc()));
}
