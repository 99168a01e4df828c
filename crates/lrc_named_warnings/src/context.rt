// What the warnings of a named program are made by.

use lrc_labels::label::Label;
use lrc_lint_warnings::warning::Spot;
use lrc_named_core::tree::Origin;
use lrc_named_entries::entry::Entry;

/// What the warnings of a named program are made by.
#[derive(Clone, Copy)]
pub struct Context<'c> {
    /// The line and the column of each token of the named program's text.
    pub spots: &'c [Spot],
    /// What each statement of the core comes from, in the order of the core's text.
    pub origins: &'c [Origin<'c>],
    /// With which token of the core's text each of its statements begins, in the same order.
    pub begins: &'c [u32],
    /// The private names of the core, by number.
    pub names: &'c [&'c [u8]],
    /// What the label lines of the core's text say.
    pub labels: &'c [Label<'c>],
    /// With which token of the named program's text each loop begins that waits for shared items and learns of no write.
    pub loops: &'c [u32],
    /// The declared names that nothing uses.
    pub unused: &'c [Entry<'c>],
}
