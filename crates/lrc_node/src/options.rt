// How a run goes.

ghost use Rattle.std.specs.Prelude.{◌≡◌};
ghost use Rattle.lrc_node.specs.Options.{options_of};

use lrc_page::Size;
use lrc_setting::setting::Setting;
use std::marker::Model;

/// The options of a run, which are the same for all nodes.
#[derive(Clone, Copy)]
pub struct Options {
    /// How many steps each node may make, 1 to 1,000,000. A step is a statement begun or a condition evaluated.
    pub steps: u32,
    /// The number of stored intervals from which on a node asks for a collection at a barrier, or 0 for never.
    pub collect: u32,
    /// The number of the first message from each node to each node.
    pub first: u32,
    /// The size of a page.
    pub size: Size,
}

impl Model for Options {
    ghost use Rattle.lrc_protocol.specs.Node.{OptionsRecord};

    ghost Value = { OptionsRecord };

    ghost view = { λ o. record { steps = o.steps; collect = o.collect; first = o.first; size = o.size } };

    ghost inverse = { λ o. record { steps = o.steps; collect = o.collect; first = o.first; size = o.size } };
}

/// Returns the options of the nodes in this setting.
pub fn options_of(setting: &Setting) -> Options
    ensures { result ≡ options_of setting.now }
{
    Options {
        steps: setting.steps.count,
        collect: setting.collect,
        first: setting.first,
        size: setting.size,
    }
}
