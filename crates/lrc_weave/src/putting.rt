// What each node put into each mailbox.

ghost use Rattle.std.specs.Prelude.{◌≡◌, IfOk, OnOk, map, replicate, []};
ghost use Rattle.lrc_weave.specs.Compared.{puts_by_each, puts_in, with_put};

use lrc_post::{Mailbox, Wire};
use std::alloc::{AllocError, Global};

/// The puts of one mailbox: for each node a line of those that it made, in order.
#[derive(Drop)]
pub(crate) struct PutsByNode<'w> {
    pub lines: Vec<Vec<&'w Wire>>,
}

/// Returns for each mailbox the puts of each of the `nodes` nodes.
pub(crate) fn all_puts(
    alloc: Global,
    nodes: usize,
    wires: &[Mailbox],
) -> Result<Vec<PutsByNode<'_>>, AllocError>
    ensures { IfOk result (λ all. map puts_in all.items
        ≡ map (λ mailbox. puts_by_each nodes mailbox.history) wires.now) }
{
    let mut all = Vec::new(alloc);
    for mailbox in wires {
        all.push(puts_of(alloc, nodes, mailbox.history())?)?;
    }
    Ok(all)
}

// The puts of one mailbox.
fn puts_of(alloc: Global, nodes: usize, history: &[Wire]) -> Result<PutsByNode<'_>, AllocError>
    ensures { IfOk result (λ puts. puts_in puts ≡ puts_by_each nodes history.now) }
{
    let mut puts = PutsByNode::none(alloc, nodes)?;
    for wire in history {
        puts.add(wire)?;
    }
    Ok(puts)
}

impl<'w> PutsByNode<'w> {
    // So many lines with nothing in them.
    fn none(alloc: Global, nodes: usize) -> Result<PutsByNode<'w>, AllocError>
        ensures { IfOk result (λ puts. puts_in puts ≡ replicate nodes []) }
    {
        let mut lines = Vec::with_capacity(alloc, nodes)?;
        for _node in 0..nodes {
            lines.push(Vec::new(alloc))?;
        }
        Ok(PutsByNode { lines })
    }

    // Puts an entry behind those of its node, if it is a put by a node that has a line.
    fn add(&mut self, wire: &'w Wire) -> Result<(), AllocError>
        ensures { OnOk result (puts_in self.new ≡ with_put (puts_in self.old) wire.now) }
    {
        let Wire::Put { from, .. } = wire else {
            return Ok(());
        };
        let Some(line) = self.lines.get_mut(usize::from(*from)) else {
            return Ok(());
        };
        line.push(wire)?;
        Ok(())
    }
}
