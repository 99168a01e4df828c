// What is known of the first acts of small programs.

use lrc_exec::code::Code;
use lrc_exec::spot::Flat;
use lrc_exec::state::State;
use lrc_lang::parse;
use lrc_orders_away::undisputed::is_undisputed;
use lrc_orders_settling::settle::settle;
use lrc_orders_settling::step::contended_deed;
use std::alloc::{AllocError, Global};

/// Whether the first read, write or acquire of a node of two is known to be undisputed, once both have settled.
fn is_known(alloc: Global, text: &[u8], node: usize) -> Result<bool, AllocError> {
    let program = parse(alloc, text).map_err(|_fault| AllocError)?;
    let code = Code::new(alloc, &program)?;
    let (flat, place) = Flat::of(&code, 2);
    let mut state = State::start(alloc, &flat, place)?;
    let mut acts = Vec::new(alloc);
    let nodes = state.spots.len();
    let settled = settle(alloc, &flat, &mut state, 0, nodes, 1000, &mut acts)?;
    if !settled || node >= state.spots.len() {
        return Ok(false);
    }
    let Some(deed) = contended_deed(&flat, &state, node) else {
        return Ok(false);
    };
    is_undisputed(alloc, &flat, &state, node, deed)
}

#[test]
fn acts_on_words_of_ones_own_are_known(rt: HostRuntime) {
    let alloc = rt.alloc();
    let texts: [&[u8]; 5] = [
        b"words 2; locks 0; [me] = 1;",
        b"words 8; locks 0; i = 0; while i < 4 { [me * 4 + i] = i; i = i + 1; }",
        b"words 5; locks 0; if me == 0 { [0] = 1; } else { i = [4]; if i < 3 { [i + 1] = 2; } }",
        b"words 5; locks 0; if me == 0 { [0] = 1; } else { i = [4]; if (i < 3) * (0 < i) { [i] = 2; } }",
        b"words 2; locks 0; if me == 0 { [0] = 1; } else { barrier; [0] = 2; }",
    ];
    for text in texts {
        assert!(rt; is_known(alloc, text, 0).unwrap_or(false));
    }
}

#[test]
fn acts_that_others_may_come_to_are_not(rt: HostRuntime) {
    let alloc = rt.alloc();
    let texts: [&[u8]; 5] = [
        b"words 2; locks 0; [0] = me;",
        b"words 2; locks 1; acquire 0; [0] = me; release 0;",
        b"words 5; locks 0; if me == 0 { [0] = 1; } else { i = [4]; [i + 1] = 2; }",
        b"words 5; locks 0; if me == 0 { [3] = 1; } else { i = [4]; if i < 3 { [i + 1] = 2; } }",
        b"words 8; locks 0; i = 0; while i < 5 { [me * 4 + i] = i; i = i + 1; if i == 4 { x = [4 - me * 4]; } }",
    ];
    for text in texts {
        assert!(rt; !is_known(alloc, text, 0).unwrap_or(true));
    }
}
