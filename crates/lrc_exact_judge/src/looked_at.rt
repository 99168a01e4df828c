// How far acts are looked at.

ghost use Rattle.std.specs.Prelude.{◌≡◌, ◌<◌, ◌≤◌, All, MatchOption, length};
ghost use Rattle.lrc_trace.specs.Synchronization.{WaitsAtBarriers};
ghost use Rattle.lrc_judge.specs.declared.TheConstants.{NODES};
ghost use Rattle.lrc_exact_judge.specs.LookedAt.{IsFirstBetween, IsLookedAt};

use lrc_judge::NODES;
use lrc_judge::synchronization::first_fault_of_synchronization;
use lrc_trace::act::{Act, Deed};

/// Returns the position of the first act of a node between an arrive and its next depart, or none.
fn first_between(acts: &[Act]) -> Option<usize>
    requires { All (λ act. act.node < NODES) acts.now }
    ensures { MatchOption result (WaitsAtBarriers acts.now) (IsFirstBetween acts.now) }
{
    let mut arrives = [0usize; NODES];
    let mut departs = [0usize; NODES];
    for position in 0..acts.len() {
        let node = usize::from(acts[position].node);
        match acts[position].deed {
            Deed::Depart => departs[node] += 1,
            Deed::Arrive => {
                if departs[node] < arrives[node] {
                    return Some(position);
                }
                arrives[node] += 1;
            }
            _ => {
                if departs[node] < arrives[node] {
                    return Some(position);
                }
            }
        }
    }
    None
}

/// Returns how many of the acts are looked at: those before the first at which they are no longer well synchronized, or
/// at which a node acts between an arrive and its next depart.
pub fn looked_at(acts: &[Act], nodes: u8) -> usize
    requires nodes { nodes ≤ NODES }
    requires acts { All (λ act. act.node < NODES) acts.now }
    ensures { IsLookedAt nodes acts.now result }
{
    let synchronized = first_fault_of_synchronization(acts, nodes).unwrap_or(acts.len());
    first_between(&acts[..synchronized]).unwrap_or(synchronized)
}
