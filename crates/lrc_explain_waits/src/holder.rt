// Who holds a lock.

ghost use Rattle.std.specs.Prelude.{◌≡◌, slice_index};
ghost use Rattle.lrc_explain_waits.specs.Holder.{held_by, holder_of};

use lrc_trace::act::{Act, Deed};

/// The node that holds a lock, and the line of the acquire that took it.
#[derive(Clone, Copy)]
pub struct Holder {
    pub node: u8,
    pub line: u32,
}

// The line at a position, and past the last one 0.
fn line_at(lines: &[u32], position: usize) -> u32
    ensures { result ≡ slice_index lines.now position }
{
    if position < lines.len() {
        lines[position]
    } else {
        0
    }
}

// The holder of a lock once a deed is done that makes `taker` the holder, if it is an acquire of the lock.
fn held_by(lock: u8, taker: Holder, held: Option<Holder>, deed: Deed) -> Option<Holder>
    ensures { result ≡ held_by lock taker held deed }
{
    match deed {
        Deed::Acquire(taken) => { if taken == lock { Some(taker) } else { held } }
        Deed::Release(given) => { if given == lock { None } else { held } }
        _ => held,
    }
}

// The holder of a lock after acts that are of these lines.
pub(crate) fn holder_of(lock: u8, acts: &[Act], lines: &[u32]) -> Option<Holder>
    ensures { result ≡ holder_of lock acts.now lines.now }
{
    let mut held = None;
    for position in 0..acts.len() {
        let act = acts[position];
        let taker = Holder {
            node: act.node,
            line: line_at(lines, position),
        };
        held = held_by(lock, taker, held, act.deed);
    }
    held
}
