// The parts of states, each once, by numbers in the order in which they first came.

ghost use Rattle.std.specs.Prelude.{◌≡◌, ◌≤◌, [], ◌∷◌, IfOk, OnOk, Some, length, map, slice_get};
ghost use Rattle.lrc_orders.specs.Kept.{AreSpotsDistinct, Grows};
ghost use Rattle.lrc_orders_settling.specs.Taking.{count_of};
ghost use Rattle.lrc_orders_table.specs.Rows.{AddsThreads, AreThreadsAt, HaveThreads};

use indexmap::IndexSet;
use lrc_exec::spot::Spot;
use lrc_orders_memory::numbers::short;
use std::alloc::{AllocError, Global};

/// The number of a thread: its own, where it came before, and else the next.
pub fn thread_number(threads: &mut IndexSet<Spot>, thread: Spot) -> Result<u32, AllocError>
    ensures grows { OnOk result (Grows threads.old.keys threads.new.keys) }
    ensures distinct { OnOk result (AreSpotsDistinct threads.new.keys) }
    ensures there { IfOk result (λ number. slice_get threads.new.keys number ≡ Some thread) }
    ensures only { OnOk result (AddsThreads threads.old.keys threads.new.keys (thread ∷ [])) }
{
    let (place, _new) = threads.insert_full(thread)?;
    let number = short(place)?;
    Ok(number)
}

/// The numbers of the threads of nodes, and 0 past them. For the threads of more than 16 nodes there is no memory.
pub fn threads_of(threads: &mut IndexSet<Spot>, spots: &[Spot]) -> Result<[u32; 16], AllocError>
    requires { AreSpotsDistinct threads.old.keys }
    ensures grows { OnOk result (Grows threads.old.keys threads.new.keys) }
    ensures distinct { OnOk result (AreSpotsDistinct threads.new.keys) }
    ensures there { IfOk result (λ numbers. AreThreadsAt threads.new.keys
        (length spots.now) numbers spots.now) }
    ensures few { OnOk result (length spots.now ≤ 16) }
    ensures only { OnOk result (AddsThreads threads.old.keys threads.new.keys spots.now) }
{
    if spots.len() > 16 {
        return Err(AllocError);
    }
    let mut numbers = [0; 16];
    for node in 0..spots.len() {
        let number = thread_number(threads, spots[node])?;
        numbers[node] = number;
    }
    Ok(numbers)
}

/// The threads of so many nodes that have these numbers.
pub fn threads_at(
    alloc: Global,
    threads: &IndexSet<Spot>,
    numbers: &[u32; 16],
    nodes: usize,
) -> Result<Vec<Spot>, AllocError>
    requires there { HaveThreads threads.now.keys nodes numbers.now }
    requires few { nodes ≤ 16 }
    ensures { IfOk result (λ spots. AreThreadsAt threads.now.keys nodes numbers.now spots.items) }
{
    let keys = threads.as_slice();
    let mut spots = Vec::new(alloc);
    for node in 0..nodes {
        spots.push(keys[numbers[node] as usize])?;
    }
    Ok(spots)
}

/// How often nodes have arrived: once where they wait, and else never.
pub fn counted(alloc: Global, spots: &[Spot]) -> Result<Vec<u64>, AllocError>
    ensures { IfOk result (λ arrivals. arrivals.items ≡ map count_of spots.now) }
{
    let mut arrivals = Vec::new(alloc);
    for spot in spots {
        arrivals.push(count_of(spot))?;
    }
    Ok(arrivals)
}

fn count_of(spot: &Spot) -> u64
    ensures { result ≡ count_of spot.now }
{
    if spot.arrived { 1 } else { 0 }
}
