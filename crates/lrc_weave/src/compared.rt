// Whether logs and mailboxes tell of the same messages, in each node's order.

ghost use Rattle.std.specs.Prelude.{◌≡◌, ◌↔◌, [], IfOk, IsTrue, length};
ghost use Rattle.std.specs.List.{list_all};
ghost use Rattle.lrc_protocol.specs.Run.{turns_of_logs};
ghost use Rattle.lrc_weave.specs.Compared.{AreSent, is_by_node, messages_left};
ghost use Rattle.lrc_weave.specs.Matched.{AreAlike, Takes, takes_in};

use crate::history::are_by_nodes;
use crate::lines::Lines;
use crate::putting::all_puts;
use crate::spelled::Speller;
use crate::takes::are_takes;
use lrc_log::Entry;
use lrc_post::{Mailbox, Wire};
use std::alloc::{AllocError, Global};

/// Returns whether logs and mailboxes, one of each for each node, record the same messages, in each node's order.
pub(crate) fn are_alike(
    alloc: Global,
    logs: &[Vec<Entry>],
    wires: &[Mailbox],
) -> Result<bool, AllocError>
    requires each { length wires.now ≡ length logs.now }
    ensures { IfOk result (λ are. IsTrue are
        ↔ AreAlike (turns_of_logs logs.now) wires.now) }
{
    if !are_all_by_nodes(wires, logs.len()) {
        return Ok(false);
    }
    let puts = all_puts(alloc, logs.len(), wires)?;
    let mut speller = Speller::new(alloc);
    for node in 0..logs.len() {
        let lines = Lines::of(alloc, puts.as_slice(), node)?;
        if !is_alike(
            &mut speller,
            lines,
            logs[node].as_slice(),
            wires[node].history(),
        )? {
            return Ok(false);
        }
    }
    Ok(true)
}

// Whether each put of each mailbox is by one of so many nodes.
fn are_all_by_nodes(wires: &[Mailbox], nodes: usize) -> bool
    ensures { result ≡ list_all (λ mailbox. list_all (is_by_node nodes) mailbox.history) wires.now }
{
    wires
        .iter()
        .all(|mailbox| are_by_nodes(mailbox.history(), nodes))
}

// Whether a node's log sends what the node put into each mailbox, and takes what the node took from its own.
fn is_alike(
    speller: &mut Speller,
    lines: Lines<'_, '_>,
    log: &[Entry],
    history: &[Wire],
) -> Result<bool, AllocError>
    ensures { IfOk result (λ is. IsTrue is ↔ (AreSent log.now (messages_left lines.entry)
        × Takes [] log.now (takes_in history.now))) }
{
    let mut lines = lines;
    if !lines.are_sent(speller, log)? {
        return Ok(false);
    }
    are_takes(speller, log, history)
}
