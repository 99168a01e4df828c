// A node and its parts.

ghost use Rattle.std.specs.Prelude.{◌≡◌, ◌<◌, ◌≤◌, IfOk, length};
ghost use Rattle.lrc_page.specs.Place.{pages_of};
ghost use Rattle.lrc_protocol.specs.Node.{fresh_node};
ghost use Rattle.lrc_control.specs.Barrier.{IsOfNodes};

use crate::options::Options;
use lrc_control::{Barrier, Clock, Text};
use lrc_exec::code::Code;
use lrc_mail::Mail;
use lrc_memory::Memory;
use lrc_page::pages_of;
use std::alloc::{AllocError, Global};
use std::marker::Model;

/// A node that has not failed: its text, its clock with the tokens, its part in barriers, its memory and its mail.
#[derive(Drop)]
pub struct NodeState<'c> {
    pub(crate) alloc: Global,
    pub(crate) me: u8,
    pub(crate) nodes: u8,
    pub(crate) words: u32,
    pub(crate) locks: u8,
    pub(crate) options: Options,
    pub(crate) text: Text<'c>,
    pub(crate) clock: Clock,
    pub(crate) barrier: Barrier,
    pub(crate) memory: Memory,
    pub(crate) mail: Mail,
}

impl<'c> Model for NodeState<'c> {
    ghost use Rattle.std.specs.Coded.{codes};
    ghost use Rattle.lrc_program.specs.contracts.Statement as statement;
    ghost use Rattle.lrc_protocol.specs.Node.{Node};

    ghost Value = { Node };

    ghost coded = { Prim.hlevel (codes, statement.the_row.coded) };

    ghost use Rattle.lrc_node.specs.Seen.{node_of, IsNodeKept};

    ghost view = { node_of };

    ghost invariant = { IsNodeKept };
}

impl<'c> NodeState<'c> {
    /// Creates node `me` of `nodes`, at most 16, at the beginning of a program.
    pub(crate) fn new(
        alloc: Global,
        code: &'c Code<'_>,
        me: u8,
        nodes: u8,
        options: &Options,
    ) -> Result<NodeState<'c>, AllocError>
        requires here { me < nodes }
        requires few { nodes ≤ 16 }
        ensures { IfOk result (λ state. state ≡ fresh_node code.now nodes options.now me) }
    {
        let words = code.words();
        let locks = code.locks();
        let memory = Memory::new(alloc, me, nodes, words, options.size)?;
        let mail = Mail::new(alloc, nodes)?;
        let clock = Clock::new(alloc, me, nodes, locks)?;
        Ok(NodeState {
            alloc,
            me,
            nodes,
            words,
            locks,
            options: *options,
            text: Text::new(code, me, nodes, options.steps),
            clock,
            barrier: Barrier::new(alloc, me, nodes),
            memory,
            mail,
        })
    }

    /// Returns the number of this node, counted from 0.
    pub fn me(&self) -> u8
        ensures me { result ≡ self.now.setting.me }
        ensures here { result < self.now.setting.nodes }
    {
        self.me
    }

    /// Returns the number of nodes, at most 16.
    pub fn nodes(&self) -> u8
        ensures nodes { result ≡ self.now.setting.nodes }
        ensures few { result ≤ 16 }
    {
        self.nodes
    }

    /// Returns the number of locks, at most 64.
    pub fn locks(&self) -> u8
        ensures locks { result ≡ self.now.setting.locks }
        ensures few { result ≤ 64 }
    {
        self.locks
    }

    /// Returns how far the node's text has come, with the steps that are left.
    pub fn text(&self) -> &Text<'c>
        ensures course { result.now.course ≡ self.now.course }
        ensures left { result.now.left ≡ self.now.left }
    {
        &self.text
    }

    /// Returns the node's time, the tokens that it has or awaits, and the last node to ask for each lock that it
    /// manages.
    pub fn clock(&self) -> &Clock
        ensures clock { result.now ≡ self.now.locks }
        ensures nodes { length self.now.locks.time ≡ self.now.setting.nodes }
        ensures locks { length self.now.locks.held.locks ≡ self.now.setting.locks }
    {
        &self.clock
    }

    /// Returns the node's part in barriers.
    pub fn barrier(&self) -> &Barrier
        ensures barrier { result.now ≡ self.now.barrier }
        ensures nodes { IsOfNodes self.now.setting.nodes self.now.barrier }
    {
        &self.barrier
    }

    /// Returns what the node knows of the shared memory.
    pub fn memory(&self) -> &Memory
        ensures me { result.now.me ≡ self.now.setting.me }
        ensures size { result.now.size ≡ self.now.options.size }
        ensures memory { result.now.memory ≡ self.now.memory }
        ensures nodes { length self.now.memory.store.last ≡ self.now.setting.nodes }
    {
        &self.memory
    }

    /// Returns what the node waits for, and the messages that it has sent and taken.
    pub fn mail(&self) -> &Mail
        ensures mail { result.now ≡ self.now.mail }
        ensures sent { length self.now.mail.sent ≡ self.now.setting.nodes }
        ensures taken { length self.now.mail.taken ≡ self.now.setting.nodes }
    {
        &self.mail
    }

    /// Returns the number of pages.
    pub fn pages(&self) -> u16
        ensures exact { result ≡ pages_of self.now.setting.words self.now.options.size }
        ensures copies { result ≡ length self.now.memory.copies }
    {
        pages_of(self.words, self.options.size)
    }
}
