// The names of a trace, among which others are looked for.
ghost use Rattle.std.specs.Prelude.{◌≤◌, length};
ghost use Rattle.lrc_races_lines.specs.Table.{names_of};

use lrc_races_lines::table::Table;

/// The names of a trace, among which others are looked for.
#[derive(Drop)]
pub struct KnownNames {
    // The names of the trace, and then those that were looked for and are none of them.
    pub(crate) table: Table,
    pub(crate) known: usize,
    pub ghost within: { known ≤ length (names_of table) },
}
