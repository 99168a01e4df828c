// What does not change along a run: the program with the lines and the private names of its text.

use lrc_exec::code::Code;

/// What is to be replayed: a program's code, the number of nodes, the lines of its statements, and its private names.
#[derive(Clone, Copy)]
pub struct Plan<'c> {
    pub code: &'c Code<'c>,
    pub nodes: u8,
    pub lines: &'c [u32],
    pub names: &'c [&'c [u8]],
}
