// The private names of a node.

ghost use Rattle.std.specs.Prelude.{◌≡◌, ◌++◌, ◌∷◌, [], IfOk, OnOk, filter, map, slice_index};
ghost use Rattle.lrc_state_text.specs.Place.{named_seen};
ghost use Rattle.lrc_states.specs.Names.{is_set, names_set};

use lrc_state_text::NamedValue;
use std::alloc::{AllocError, Global};

/// Returns the private names whose value is not 0. One in whose place nothing stands is not told.
pub(crate) fn names_set<'t>(
    alloc: Global,
    names: &[&'t [u8]],
    values: &[u64; 32],
) -> Result<Vec<NamedValue<'t>>, AllocError>
    ensures { IfOk result (λ found. map named_seen found.items
        ≡ names_set (map (λ name. name.now) names.now) values.now) }
{
    let mut set = Vec::new(alloc);
    for number in 0..names.len() {
        keep_set(&mut set, names[number], value_of(values, number))?;
    }
    Ok(set)
}

// Keeps a name with its value, if something stands in its place and the value is not 0.
fn keep_set<'t>(set: &mut Vec<NamedValue<'t>>, name: &'t [u8], value: u64) -> Result<(), AllocError>
    ensures { OnOk result (map named_seen set.new.items
        ≡ map named_seen set.old.items
        ++ filter is_set (record { name = name.entry.now; value = value } ∷ [])) }
{
    if !name.is_empty() && value != 0 {
        set.push(NamedValue { name, value })?;
    }
    Ok(())
}

// The value of the name of this number.
fn value_of(values: &[u64; 32], number: usize) -> u64
    ensures { result ≡ slice_index values.now number }
{
    if number < 32 { values[number] } else { 0 }
}
