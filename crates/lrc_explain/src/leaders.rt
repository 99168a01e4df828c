// Of each group of races the first pair.

ghost use Rattle.std.specs.Prelude.{◌≡◌, IfOk};
ghost use Rattle.lrc_explain.specs.Groups.{leaders_of};

use crate::site::site_of;
use lrc_judge::first_pairs::Pair;
use lrc_trace::act::Act;
use std::alloc::{AllocError, Global};
use std::collections::BTreeSet;

/// Returns, from the first pairs of races, the first pair of each group, in the order of the groups. The cost is nearly
/// linear in the number of pairs. It fails only if memory runs out.
pub fn leaders_of(
    alloc: Global,
    acts: &[Act],
    lines: &[u32],
    pairs: &[Pair],
) -> Result<Vec<Pair>, AllocError>
    ensures { IfOk result (λ leaders. leaders.items ≡ leaders_of acts.now lines.now pairs.now) }
{
    let mut sites = BTreeSet::new(alloc);
    let mut leaders = Vec::new(alloc);
    for pair in pairs {
        let site = site_of(acts, lines, *pair);
        if sites.insert(site)? {
            leaders.push(*pair)?;
        }
    }
    Ok(leaders)
}
