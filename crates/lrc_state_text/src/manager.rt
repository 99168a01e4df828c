// A node's part in barriers.

ghost use Rattle.std.specs.Prelude.{◌≡◌, ◌++◌, ◌<◌, IfOk, OnOk, length};
ghost use Rattle.lrc_control.specs.Barrier.{IsOfNodes};
ghost use Rattle.lrc_state_text.specs.Manager.{arrived_nodes, barrier_members, clean_text, cleaned_nodes, has_cleaned, manager_or_null, manager_text};

use crate::json::{push_numbers, put_if};
use lrc_barrier::Manager;
use lrc_control::Barrier;
use lrc_text::push_number;
use std::alloc::{AllocError, Global};

#[tactic(auto, using(crate::proofs::Lists::shown_more))]
// The nodes that have arrived at the next episode.
fn arrived_nodes(alloc: Global, manager: &Manager, nodes: u8) -> Result<Vec<u64>, AllocError>
    requires { nodes ≡ length manager.now.last }
    ensures { IfOk result (λ arrived. arrived.items ≡ arrived_nodes manager.now) }
{
    let mut arrived = Vec::new(alloc);
    for node in 0..nodes {
        put_if(&mut arrived, u64::from(node), manager.has_arrived(node))?;
    }
    Ok(arrived)
}

fn has_cleaned(manager: &Manager, node: u8) -> bool
    requires { node < length manager.now.last }
    ensures { result ≡ has_cleaned manager.now node }
{
    manager.has_cleaned(node).unwrap_or(false)
}

#[tactic(auto, using(crate::proofs::Lists::shown_more))]
// The nodes that have sent their Clean.
fn cleaned_nodes(alloc: Global, manager: &Manager, nodes: u8) -> Result<Vec<u64>, AllocError>
    requires { nodes ≡ length manager.now.last }
    ensures { IfOk result (λ cleaned. cleaned.items ≡ cleaned_nodes manager.now) }
{
    let mut cleaned = Vec::new(alloc);
    for node in 0..nodes {
        put_if(&mut cleaned, u64::from(node), has_cleaned(manager, node))?;
    }
    Ok(cleaned)
}

#[tactic(auto, unfolding(crate::specs::Manager::clean_text))]
fn push_clean(text: &mut Vec<u8>, manager: &Manager, nodes: u8) -> Result<(), AllocError>
    requires nodes { nodes ≡ length manager.now.last }
    requires some { 0 < nodes }
    ensures { OnOk result (text.new.items
        ≡ text.old.items ++ clean_text manager.now.cleans (cleaned_nodes manager.now)) }
{
    if manager.has_cleaned(0).is_none() {
        return text.extend_from_slice(b"null");
    }
    let cleaned = cleaned_nodes(*text.allocator(), manager, nodes)?;
    push_numbers(text, &cleaned)
}

fn push_manager(text: &mut Vec<u8>, manager: &Manager, nodes: u8) -> Result<(), AllocError>
    requires nodes { nodes ≡ length manager.now.last }
    requires some { 0 < nodes }
    ensures { OnOk result (text.new.items ≡ text.old.items ++ manager_text manager.now) }
{
    let arrived = arrived_nodes(*text.allocator(), manager, nodes)?;
    push_number(text, b"{\"done\":", u64::from(manager.done()))?;
    text.extend_from_slice(b",\"arrived\":")?;
    push_numbers(text, &arrived)?;
    text.extend_from_slice(b",\"clean\":")?;
    push_clean(text, manager, nodes)?;
    text.extend_from_slice(b"}")
}

#[tactic(auto, unfolding(crate::specs::Manager::manager_or_null))]
fn push_manager_or_null(text: &mut Vec<u8>, barrier: &Barrier, nodes: u8) -> Result<(), AllocError>
    requires nodes { IsOfNodes nodes barrier.now }
    requires some { 0 < nodes }
    ensures { OnOk result (text.new.items ≡ text.old.items ++ manager_or_null barrier.now.manager) }
{
    match barrier.manager() {
        Some(manager) => push_manager(text, manager, nodes),
        None => text.extend_from_slice(b"null"),
    }
}

/// Adds how often the node has arrived at a barrier, and the barrier manager's state: `null` if another node is the
/// manager. There are `nodes` nodes.
pub(crate) fn push_barrier(
    text: &mut Vec<u8>,
    barrier: &Barrier,
    nodes: u8,
) -> Result<(), AllocError>
    requires nodes { IsOfNodes nodes barrier.now }
    requires some { 0 < nodes }
    ensures { OnOk result (text.new.items ≡ text.old.items ++ barrier_members barrier.now) }
{
    push_number(text, b",\"episode\":", u64::from(barrier.episode()))?;
    text.extend_from_slice(b",\"manager\":")?;
    push_manager_or_null(text, barrier, nodes)
}
