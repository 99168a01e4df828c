// What is printed of pairs of locations, as words or as objects.
ghost use Rattle.std.specs.Prelude.{◌≡◌, ◌++◌, OnOk};
ghost use Rattle.lrc_races_text.specs.Tables.{naming_of};
ghost use Rattle.lrc_races_locations.specs.Layouts.{location_lines};

use crate::objects::push_location_objects;
use crate::spelling::push_locations;
use lrc_races_text::asked::Layout;
use lrc_races_text::form::Form;
use lrc_races_text::naming::Names;
use lrc_races_trace::event::Pair;
use std::alloc::AllocError;

/// Adds the lines of the pairs of locations that race, in this layout.
pub fn push_location_lines(
    text: &mut Vec<u8>,
    layout: Layout,
    form: Form,
    names: &Names,
    pairs: &[Pair],
) -> Result<(), AllocError>
    ensures { OnOk result (text.new.items
        ≡ text.old.items ++ location_lines layout form (naming_of names.now) pairs.now) }
{
    match layout {
        Layout::Words => push_locations(text, form, names, pairs),
        Layout::Objects => push_location_objects(text, names, pairs),
    }
}
