// The machine of a node, and the plain machine.

ghost use Rattle.std.specs.Prelude.{◌≤◌};

use crate::acts::run_of;
use crate::checks::holds;
use lrc_exec::code::Code;
use lrc_exec::machine::{Ask, Machine};
use lrc_exec::plain::plain_run;
use lrc_exec::rounds::plain_rounds;
use lrc_lang::parse;
use lrc_program::Program;
use lrc_trace::act::{Act, Cause, Deed};
use std::alloc::{AllocError, Global};

const ONE_NODE: &[u8] = b"words 1; locks 0; [0] = 7; x = [0]; print x + me;";

const TWO_NODES: &[u8] = b"words 1; locks 0; if me == 0 { [0] = 5; } else { x = [0]; print x; }";

const COUNTER: &[u8] =
    b"words 1; locks 1; acquire 0; x = [0]; [0] = x + 1; release 0; barrier; x = [0]; print x;";

const TRAPS: &[u8] =
    b"words 1; locks 1; if me == 0 { [1] = 1; } if me == 1 { release 0; } if me == 2 { [1] = 1 % 0; }
    if me == 3 { acquire 1; } if me == 4 { acquire 0; acquire 0; } print me;";

fn program_of(alloc: Global, text: &[u8]) -> Result<Program, AllocError> {
    match parse(alloc, text) {
        Ok(program) => Ok(program),
        Err(_fault) => Err(AllocError),
    }
}

/// Whether a thread asks for these, one after another, and gets these values.
fn asks_each(machine: &mut Machine<'_>, wanted: &[(Ask, u64)]) -> bool {
    for (asked, value) in wanted {
        let ask = machine.ask();
        if ask != *asked {
            return false;
        }
        if !matches!(ask, Ask::Trap(_) | Ask::End) {
            machine.answer(*value);
        }
    }
    true
}

fn asks_alone(alloc: Global, program: &Program, wanted: &[(Ask, u64)]) -> bool {
    let Ok(code) = Code::new(alloc, program) else {
        return false;
    };
    let mut machine = Machine::new(&code, 0, 1);
    asks_each(&mut machine, wanted)
}

/// Whether the thread of a text on one node asks for these.
fn asks_in(alloc: Global, text: &[u8], wanted: &[(Ask, u64)]) -> bool {
    match parse(alloc, text) {
        Ok(program) => asks_alone(alloc, &program, wanted),
        Err(_) => false,
    }
}

const ASKED: &[(Ask, u64)] = &[
    (Ask::Write(0, 7), 0),
    (Ask::Read(0), 7),
    (Ask::Print(7), 0),
    (Ask::End, 0),
];

#[test]
fn a_thread_asks_step_by_step(rt: HostRuntime) {
    holds(&rt, "a thread", asks_in(rt.alloc(), ONE_NODE, ASKED));
}

/// An order of two nodes, and the acts that it leads to, if it may be.
type Led<'a> = (&'a [usize], Option<&'a [(u8, Deed)]>);

fn are_acts(alloc: Global, acts: &[Act], wanted: &[(u8, Deed)]) -> bool {
    match run_of(alloc, wanted) {
        Ok(run) => acts == run.as_slice(),
        Err(_) => false,
    }
}

fn leads_to(alloc: Global, program: &Program, led: Led) -> bool {
    let (order, wanted) = led;
    match (plain_run(alloc, program, 2, order), wanted) {
        (Ok(Some(acts)), Some(wanted)) => are_acts(alloc, &acts, wanted),
        (Ok(None), None) => true,
        _ => false,
    }
}

/// Whether the text, led by this order on two nodes, makes these acts, or none.
fn is_led(alloc: Global, text: &[u8], led: Led) -> bool {
    match parse(alloc, text) {
        Ok(program) => leads_to(alloc, &program, led),
        Err(_) => false,
    }
}

/// The acts that the text makes in rounds.
fn rounds_of(alloc: Global, text: &[u8], nodes: u8, steps: u32) -> Result<Vec<Act>, AllocError>
    requires some_nodes { 1 ≤ nodes }
    requires few_nodes { nodes ≤ 16 }
    requires some_steps { 1 ≤ steps }
    requires few_steps { steps ≤ 1000000 }
{
    let program = program_of(alloc, text)?;
    plain_rounds(alloc, &program, nodes, steps)
}

/// Whether each of sixteen nodes prints this.
fn all_print(acts: &[Act], value: u64) -> bool {
    let deed = Deed::Print(value);
    for node in 0..16u8 {
        if !acts.contains(&Act { node, deed }) {
            return false;
        }
    }
    true
}

/// Whether each of sixteen nodes adds one to a counter, and reads it behind a barrier.
fn counts_to_sixteen(alloc: Global) -> bool {
    match rounds_of(alloc, COUNTER, 16, 1_000_000) {
        Ok(acts) => all_print(&acts, 16),
        Err(_) => false,
    }
}

#[test]
fn each_node_counts(rt: HostRuntime) {
    holds(&rt, "sixteen", counts_to_sixteen(rt.alloc()));
}

const HUNDRED_TURNS: &[u8] =
    b"words 65536; locks 64; while i < 100 { acquire 63; x = [65535]; [65535] = x + 1; release 63; i = i + 1; }
    barrier; x = [65535]; print x;";

fn nodes_of(alloc: Global, acts: &[Act]) -> Result<Vec<usize>, AllocError> {
    let mut order = Vec::new(alloc);
    for act in acts {
        order.push(usize::from(act.node))?;
    }
    Ok(order)
}

fn is_led_back(alloc: Global, program: &Program, order: &[usize], acts: &[Act]) -> bool {
    match plain_run(alloc, program, 16, order) {
        Ok(Some(led)) => led.as_slice() == acts,
        _ => false,
    }
}

/// Whether the nodes of these acts lead the plain machine to the same acts.
fn leads_back(alloc: Global, program: &Program, acts: &[Act]) -> bool {
    match nodes_of(alloc, acts) {
        Ok(order) => is_led_back(alloc, program, &order, acts),
        Err(_) => false,
    }
}

/// Whether sixteen nodes, each with a hundred turns, make so many acts in rounds, each prints the number of all turns, and the
/// nodes of the acts lead the plain machine to the same acts.
fn is_led_by_rounds(alloc: Global, program: &Program, count: usize) -> bool {
    match plain_rounds(alloc, program, 16, 1_000_000) {
        Ok(acts) => {
            acts.len() == count && all_print(&acts, 1_600) && leads_back(alloc, program, &acts)
        }
        Err(_) => false,
    }
}

fn hundred_turns(alloc: Global, count: usize) -> bool {
    match parse(alloc, HUNDRED_TURNS) {
        Ok(program) => is_led_by_rounds(alloc, &program, count),
        Err(_) => false,
    }
}

#[test]
fn a_long_order_leads_the_plain_machine(rt: HostRuntime) {
    // 101 conditions, 100 times five statements, then Arrive, Depart, Read, Print and End
    holds(&rt, "turns", hundred_turns(rt.alloc(), 16 * 606));
}

fn contains_each(acts: &[Act], wanted: &[(u8, Deed)]) -> bool {
    for (node, deed) in wanted {
        let act = Act {
            node: *node,
            deed: *deed,
        };
        if !acts.contains(&act) {
            return false;
        }
    }
    true
}

/// Whether these acts are among those of the traps.
fn traps(alloc: Global, wanted: &[(u8, Deed)]) -> bool {
    match rounds_of(alloc, TRAPS, 6, 1_000_000) {
        Ok(acts) => contains_each(&acts, wanted),
        Err(_) => false,
    }
}

const TRAPPED: &[(u8, Deed)] = &[
    (0, Deed::Trap(Cause::WordOutOfRange)),
    (1, Deed::Trap(Cause::LockNotHeld)),
    (2, Deed::Trap(Cause::DivisionByZero)),
    (3, Deed::Trap(Cause::LockOutOfRange)),
    (4, Deed::Trap(Cause::LockHeld)),
    (5, Deed::Print(5)),
    (5, Deed::End),
];

#[test]
fn each_trap_has_its_cause(rt: HostRuntime) {
    holds(&rt, "traps", traps(rt.alloc(), TRAPPED));
}

/// Whether the text on one node, with so many steps, makes these acts in rounds.
fn makes_alone(alloc: Global, text: &[u8], steps: u32, wanted: &[(u8, Deed)]) -> bool
    requires some_steps { 1 ≤ steps }
    requires few_steps { steps ≤ 1000000 }
{
    match rounds_of(alloc, text, 1, steps) {
        Ok(acts) => are_acts(alloc, &acts, wanted),
        Err(_) => false,
    }
}

const ARITHMETIC: &[u8] = b"words 1; locks 0; print 0 - 1; print 7 / 2 * 2 + 7 % 2 == 7;
        print 18446744073709551615 + 3;";

const PRINTED: &[(u8, Deed)] = &[
    (0, Deed::Print(18_446_744_073_709_551_615)),
    (0, Deed::Print(1)),
    (0, Deed::Print(2)),
    (0, Deed::End),
];

const ENDLESS: &[u8] = b"words 1; locks 0; while 1 { x = x + 1; }";

const QUIET: &[(u8, Deed)] = &[(0, Deed::Quiet), (0, Deed::Quiet), (0, Deed::Quiet)];

#[test]
fn arithmetic_wraps_and_steps_are_used_up(rt: HostRuntime) {
    let printed = makes_alone(rt.alloc(), ARITHMETIC, 1_000_000, PRINTED);
    holds(&rt, "arithmetic", printed);
    holds(&rt, "steps", makes_alone(rt.alloc(), ENDLESS, 3, QUIET));
}

// Node 1 takes the lock after node 0, which writes word 1 behind its release.
const LATE: &[u8] = b"words 2; locks 1; if me == 0 { acquire 0; [0] = 1; release 0; [1] = 2; }
    else { acquire 0; x = [0]; y = [1]; release 0; print x; print y; }";

const LED: &[(&str, &[u8], Led)] = &[
    (
        "the reader waits",
        TWO_NODES,
        (
            &[0, 1, 0, 1, 1, 0, 1],
            Some(&[
                (0, Deed::Quiet),
                (1, Deed::Quiet),
                (0, Deed::Write(0, 5)),
                (1, Deed::Read(0, 5)),
                (1, Deed::Print(5)),
                (0, Deed::End),
                (1, Deed::End),
            ]),
        ),
    ),
    (
        "the reader is first",
        TWO_NODES,
        (
            &[1, 1, 0, 0],
            Some(&[
                (1, Deed::Quiet),
                (1, Deed::Read(0, 0)),
                (0, Deed::Quiet),
                (0, Deed::Write(0, 5)),
            ]),
        ),
    ),
    ("no order", TWO_NODES, (&[], Some(&[]))),
    ("a node that is not there", TWO_NODES, (&[2], None)),
    ("a node at its end", TWO_NODES, (&[0, 0, 0, 0], None)),
    (
        "the plain machine reads what was written last",
        LATE,
        (
            &[0, 0, 0, 0, 0, 1, 1, 1, 1],
            Some(&[
                (0, Deed::Quiet),
                (0, Deed::Acquire(0)),
                (0, Deed::Write(0, 1)),
                (0, Deed::Release(0)),
                (0, Deed::Write(1, 2)),
                (1, Deed::Quiet),
                (1, Deed::Acquire(0)),
                (1, Deed::Read(0, 1)),
                (1, Deed::Read(1, 2)),
            ]),
        ),
    ),
];

#[test]
fn an_order_leads_the_plain_machine(rt: HostRuntime) {
    for (name, text, led) in LED {
        holds(&rt, name, is_led(rt.alloc(), text, *led));
    }
}
