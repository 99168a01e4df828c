// The nodes of a run on their ways through the text.

ghost use Rattle.std.specs.Prelude.{◌≡◌, ◌++◌, ◌∷◌, [], ℕ, List, map, slice_index_or, IfOk, OnErr, OnOk};
ghost use Rattle.lrc_program.specs.declared.Program.{Program};
ghost use Rattle.lrc_exec.specs.Ask.{ask_of};
ghost use Rattle.lrc_exec.specs.Meaning.{next_of};
ghost use Rattle.lrc_lines.specs.Seen.{walks_of};
ghost use Rattle.lrc_lines.specs.Walks.{walks_behind, line_at, act_lines, end_line};

use crate::walk::Walk;
use lrc_exec::code::Code;
use lrc_exec::machine::Ask;
use lrc_trace::act::Act;
use std::alloc::{AllocError, Global};

/// Where each node of a run is in the text.
#[derive(Drop)]
pub struct Walks<'c> {
    nodes: Vec<Walk<'c>>,
    end: u32,
}

/// The lines of acts that were followed, and where the acts leave the nodes.
#[derive(Drop)]
pub struct Followed<'c> {
    /// The line of each act.
    pub lines: Vec<u32>,
    /// Where the nodes are after the acts.
    pub walks: Walks<'c>,
}

// The line of the text's end, which comes last.
#[tactic(auto, using(crate::proofs::Following::end_of_last, crate::proofs::Following::end_of_none))]
fn end_line(lines: &[u32]) -> u32
    ensures { result ≡ end_line lines.now }
{
    match lines.last() {
        Some(end) => *end,
        None => 0,
    }
}

impl<'c> Walks<'c> {
    /// Places nodes 0, 1, .. at the beginning of a program. `lines` has the lines of its statements, and last that of
    /// the text's end. It fails if memory runs out.
    pub fn start(
        alloc: Global,
        code: &'c Code<'_>,
        lines: &'c [u32],
        nodes: u8,
    ) -> Result<Walks<'c>, AllocError>
        ensures walks { IfOk result (λ walks. walks_of walks
            ≡ walks_behind code.now nodes lines.now []) }
        ensures end { IfOk result (λ walks. walks.end ≡ end_line lines.now) }
    {
        let mut walks = Vec::new(alloc);
        for me in 0..nodes {
            walks.push(Walk::start(alloc, code, lines, nodes, me)?)?;
        }
        Ok(Walks {
            nodes: walks,
            end: end_line(lines),
        })
    }

    /// Returns what a node's thread asks for next. If the node has arrived at a barrier, this is still the barrier. If
    /// there is no such node, it is the end.
    pub fn ask(&self, node: u8) -> Ask
        ensures { result ≡ slice_index_or (map (λ walk. ask_of (next_of walk.thread))
            (walks_of self.now)) node Ask.End }
    {
        let node = usize::from(node);
        if node < self.nodes.len() {
            self.nodes[node].ask()
        } else {
            Ask::End
        }
    }

    /// Returns the line of what a node does next, or the line of the text's end if there is no such node.
    pub fn line(&self, node: u8) -> u32
        ensures { result ≡ slice_index_or (map (line_at self.now.end) (walks_of self.now)) node
            self.now.end }
    {
        let node = usize::from(node);
        if node < self.nodes.len() {
            self.nodes[node].line(self.end)
        } else {
            self.end
        }
    }

    /// Moves the act's node on by the act; without such a node nothing changes. If memory runs out, it fails and every
    /// node stays where it was.
    pub fn follow(&mut self, act: &Act) -> Result<(), AllocError>
        ensures walks { (program : Program) (nodes : ℕ) (lines : List ℕ) (before : List Act)
            → walks_of self.old ≡ walks_behind program nodes lines before
            → OnOk result (walks_of self.new
            ≡ walks_behind program nodes lines (before ++ act.now ∷ [])) }
        ensures err { OnErr result (walks_of self.new ≡ walks_of self.old) }
        ensures end { self.new.end ≡ self.old.end }
    {
        let node = usize::from(act.node);
        if node < self.nodes.len() {
            self.nodes[node].follow(act.deed)
        } else {
            Ok(())
        }
    }
}

/// Follows acts of nodes 0, 1, .. from the beginning of a program. `lines` has the lines of its statements, and last
/// that of the text's end. It fails if memory runs out.
pub fn follow_acts<'c>(
    alloc: Global,
    code: &'c Code<'_>,
    lines: &'c [u32],
    nodes: u8,
    acts: &[Act],
) -> Result<Followed<'c>, AllocError>
    ensures lines { IfOk result (λ followed. followed.lines.items
        ≡ act_lines code.now nodes lines.now acts.now) }
    ensures walks { IfOk result (λ followed. walks_of followed.walks
        ≡ walks_behind code.now nodes lines.now acts.now) }
    ensures end { IfOk result (λ followed. followed.walks.end ≡ end_line lines.now) }
{
    let mut walks = Walks::start(alloc, code, lines, nodes)?;
    let mut found = Vec::new(alloc);
    for act in acts {
        found.push(walks.line(act.node))?;
        walks.follow(act)?;
    }
    Ok(Followed {
        lines: found,
        walks,
    })
}

/// Returns the line of each act: that of its statement, or for an end that of the text's end. It fails if memory runs
/// out.
pub fn lines_of_acts(
    alloc: Global,
    code: &Code<'_>,
    lines: &[u32],
    nodes: u8,
    acts: &[Act],
) -> Result<Vec<u32>, AllocError>
    ensures { IfOk result (λ found. found.items ≡ act_lines code.now nodes lines.now acts.now) }
{
    Ok(follow_acts(alloc, code, lines, nodes, acts)?.lines)
}
