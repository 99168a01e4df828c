// The names that statements set.

ghost use Rattle.std.specs.Prelude.{◌≡◌, ◌++◌, [], ◌∷◌, IfOk, OnOk, map};
ghost use Rattle.lrc_named_tree.specs.View.{named_of};
ghost use Rattle.lrc_named_statement_faults.specs.Parts.{part_seen};
ghost use Rattle.lrc_named_statement_faults.specs.Statements.{set_in, set_names};

use lrc_named_statement_faults::parts::Part;
use lrc_named_tree::tree::Name;
use std::alloc::{AllocError, Global};

/// Returns the names that these parts set, without an index or behind `for`. It fails only if memory runs out.
pub(crate) fn names_set<'p>(
    alloc: Global,
    parts: &[Part<'_, 'p>],
) -> Result<Vec<Name<'p>>, AllocError>
    ensures { IfOk result (λ names. map named_of names.items ≡ set_names (map part_seen parts.now)) }
{
    let mut names = Vec::new(alloc);
    for part in parts {
        push_set(&mut names, *part)?;
    }
    Ok(names)
}

// Adds the name that a part sets, if it sets one.
fn push_set<'p>(names: &mut Vec<Name<'p>>, part: Part<'_, 'p>) -> Result<(), AllocError>
    ensures { OnOk result (map named_of names.new.items
        ≡ map named_of names.old.items ++ set_in (part_seen part.entry)) }
{
    match part {
        Part::Target(place) => match place.indices.as_slice() {
            [] => push(names, place.name),
            [_, ..] => Ok(()),
        },
        Part::Counter(name) => push(names, name),
        Part::Lock(_) => Ok(()),
        Part::Value(_) => Ok(()),
    }
}

fn push<'p>(names: &mut Vec<Name<'p>>, name: Name<'p>) -> Result<(), AllocError>
    ensures { OnOk result (map named_of names.new.items
        ≡ map named_of names.old.items ++ named_of name.entry ∷ []) }
{
    names.push(name)?;
    Ok(())
}
