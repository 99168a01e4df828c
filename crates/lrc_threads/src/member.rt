// What one of the nodes of a run is.

ghost use Rattle.std.specs.Prelude.{◌≡◌};
ghost use Rattle.lrc_node.specs.Options.{options_of};

use lrc_node::{Options, options_of};
use lrc_setting::setting::Setting;

/// One node of a run: the number of nodes, their options, and the node's number.
#[derive(Clone, Copy)]
pub(crate) struct Member {
    pub nodes: u8,
    pub options: Options,
    pub me: u8,
}

impl Member {
    /// Returns node `me` of a run in this setting.
    pub(crate) fn new(setting: &Setting, me: u8) -> Member
        ensures { result ≡ record {
          nodes = setting.now.nodes.count;
          options = options_of setting.now;
          me = me;
        } }
    {
        Member {
            nodes: setting.nodes.number(),
            options: options_of(setting),
            me,
        }
    }
}
