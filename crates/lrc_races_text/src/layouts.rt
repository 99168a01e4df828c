// What is printed of a trace, as words or as objects.
ghost use Rattle.std.specs.Prelude.{◌≡◌, ◌++◌, OnOk};
ghost use Rattle.lrc_races_text.specs.Tables.{naming_of};
ghost use Rattle.lrc_races_text.specs.Layouts.{end_lines, pair_lines};

use crate::asked::Layout;
use crate::form::Form;
use crate::naming::Names;
use crate::objects::{push_end_objects, push_pair_objects};
use crate::spelling::{push_end, push_pairs};
use lrc_races_trace::event::Pair;
use lrc_races_trace::fault::Fault;
use lrc_races_trace::group::Group;
use std::alloc::AllocError;

/// Adds the lines of the reported pairs in this layout.
pub fn push_pair_lines(
    text: &mut Vec<u8>,
    layout: Layout,
    form: Form,
    names: &Names,
    pairs: &[Pair],
) -> Result<(), AllocError>
    ensures { OnOk result (text.new.items
        ≡ text.old.items ++ pair_lines layout form (naming_of names.now) pairs.now) }
{
    match layout {
        Layout::Words => push_pairs(text, form, names, pairs),
        Layout::Objects => push_pair_objects(text, names, pairs),
    }
}

/// Adds what is reported at the end of a trace in this layout: the groups, the first event that no program would give,
/// and the last line.
pub fn push_end_lines(
    text: &mut Vec<u8>,
    layout: Layout,
    form: Form,
    names: &Names,
    groups: &[Group],
    fault: Option<Fault>,
    races: u64,
    events: u64,
) -> Result<(), AllocError>
    ensures { OnOk result (text.new.items ≡ text.old.items
        ++ end_lines layout form (naming_of names.now) groups.now fault races events) }
{
    match layout {
        Layout::Words => push_end(text, form, names, groups, fault, races, events),
        Layout::Objects => push_end_objects(text, names, groups, fault, races, events),
    }
}
