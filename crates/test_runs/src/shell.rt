// A program whose nodes are on threads, and what comes of it.

use lrc_envelope::Picker;
use lrc_node::Options;
use lrc_page::Size;
use lrc_post::Wires;
use lrc_program::Program;
use lrc_run::{RunFault, run};
use lrc_setting::setting::{Nodes, Setting, Steps};
use lrc_world::report::Report;
use std::alloc::Global;
use std::sync::Wait;
use std::thread::Threads;

/// In which order a node is given its messages.
pub const ORDERS: &[Picker] = &[Picker::Oldest, Picker::Newest, Picker::Twice];

/// As many steps as a node may be given, and pages of 64 words.
pub fn options(collect: u32) -> Options {
    Options {
        steps: 1_000_000,
        collect,
        first: 0,
        size: Size::Words64,
    }
}

/// So many nodes with as many steps as a node may be given, whose messages to each other are numbered from this number on.
pub fn setting_of(nodes: u32, first: u32) -> Option<Setting> {
    let setting = Setting {
        nodes: Nodes::new(nodes)?,
        steps: Steps::new(1_000_000)?,
        collect: 0,
        size: Size::Words64,
        first,
    };
    Some(setting)
}

/// The run of a program whose nodes are on threads.
pub fn ran<R: Threads + Wait + Sync>(
    rt: &R,
    alloc: Global,
    program: &Program,
    nodes: u32,
    options: &Options,
    order: Picker,
) -> Result<(Report, Wires), RunFault> {
    run(rt, alloc, program, nodes, options, order)
}
