// Declared names that nothing uses.

ghost use Rattle.std.specs.Prelude.{◌≡◌, ◌++◌, IfOk, OnOk, map};
ghost use Rattle.lrc_named_tokens.specs.View.{located_of};
ghost use Rattle.lrc_named_tree.specs.View.{declaration_of};
ghost use Rattle.lrc_named_entries.specs.View.{entry_seen};
ghost use Rattle.lrc_named_uses.specs.Spots.{unless_found};
ghost use Rattle.lrc_named_uses.specs.Unused.{unused_of};

use crate::spots::{Spots, is_found, spots_of};
use lrc_named_entries::entries_of;
use lrc_named_entries::entry::Entry;
use lrc_named_tokens::token::Located;
use lrc_named_tree::tree::Declaration;
use std::alloc::{AllocError, Global};
use std::collections::HashMap;

/// Returns the names that these declarations declare and that nothing in the text of these tokens uses, in the order of
/// the text. It fails only if memory runs out.
pub fn unused_of<'t>(
    alloc: Global,
    tokens: &[Located<'_>],
    declarations: &[Declaration<'t>],
) -> Result<Vec<Entry<'t>>, AllocError>
    ensures { IfOk result (λ unused. map entry_seen unused.items
        ≡ unused_of (map located_of tokens.now) (map declaration_of declarations.now)) }
{
    let entries = entries_of(alloc, declarations)?;
    let spots = spots_of(alloc, tokens, declarations)?;
    let mut unused = Vec::new(alloc);
    for entry in &entries {
        put_unless_found(&mut unused, &spots, *entry)?;
    }
    Ok(unused)
}

fn put_unless_found<'t>(
    unused: &mut Vec<Entry<'t>>,
    spots: &HashMap<&[u8], Spots>,
    entry: Entry<'t>,
) -> Result<(), AllocError>
    ensures { OnOk result (map entry_seen unused.new.items ≡ map entry_seen unused.old.items
        ++ unless_found spots.now (entry_seen entry.entry)) }
{
    if is_found(spots, entry.name) {
        return Ok(());
    }
    unused.push(entry)?;
    Ok(())
}
