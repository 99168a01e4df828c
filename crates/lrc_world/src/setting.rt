// The setting of a run, by the numbers that it is asked for with.

ghost use Rattle.std.specs.Prelude.{◌≡◌, ◌⊎◌, MatchResult};
ghost use Rattle.lrc_exec.specs.Nodes.{AreNodes};
ghost use Rattle.lrc_setting.specs.Ranges.{AreSteps};
ghost use Rattle.lrc_node.specs.Options.{options_of};

use crate::report::SimFault;
use lrc_node::Options;
use lrc_setting::setting::{Nodes, Setting, Steps};

/// Returns the setting with this number of nodes and these options. It fails with `BadNodes` unless there are 1 to 16
/// nodes, and otherwise with `BadSteps` unless there are 1 to 1,000,000 steps.
pub fn setting_of(nodes: u32, options: &Options) -> Result<Setting, SimFault>
    ensures { MatchResult result
        (λ setting. (setting.nodes.count ≡ nodes) × (options_of setting ≡ options.now))
        (λ fault. ((fault ≡ SimFault.BadNodes) × ¬ AreNodes nodes)
        ⊎ ((fault ≡ SimFault.BadSteps) × AreNodes nodes × ¬ AreSteps options.now.steps)) }
{
    let Some(nodes) = Nodes::new(nodes) else {
        return Err(SimFault::BadNodes);
    };
    let Some(steps) = Steps::new(options.steps) else {
        return Err(SimFault::BadSteps);
    };
    Ok(Setting {
        nodes,
        steps,
        collect: options.collect,
        size: options.size,
        first: options.first,
    })
}
