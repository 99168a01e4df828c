// Names where they are declared.

ghost use Rattle.std.specs.Prelude.{◌≡◌, ◌++◌, [], ◌∷◌, IfOk, OnOk, length, map};
ghost use Rattle.std.specs.List.{flat_map};
ghost use Rattle.lrc_named_tree.specs.View.{declaration_of, expression_of, expressions_of, named_of, place_of};
ghost use Rattle.lrc_named_entries.specs.Entry.{constant_entry, entries_in, entries_of, function_entry, item_entry, last_behind};
ghost use Rattle.lrc_named_entries.specs.View.{entry_seen};

use lrc_named_tree::tree::{Declaration, Expression, Name, Place};
use std::alloc::{AllocError, Global};

/// What a name is declared as.
#[derive(Clone, Copy)]
pub enum Sort {
    Constant,
    /// A shared word, or an array of words.
    Shared,
    /// A lock, or an array of locks.
    Lock,
    Function,
}

/// A name where it is declared.
#[derive(Clone, Copy)]
pub struct Entry<'t> {
    pub name: Name<'t>,
    pub sort: Sort,
    /// How many indices or arguments it takes.
    pub count: usize,
    /// The last token of what declares it. Behind that it is declared.
    pub last: u32,
}

/// Returns the names that these declarations declare, parameters aside, in the order of the text. It fails only if memory
/// runs out.
pub fn entries_of<'t>(
    alloc: Global,
    declarations: &[Declaration<'t>],
) -> Result<Vec<Entry<'t>>, AllocError>
    ensures { IfOk result (λ entries. map entry_seen entries.items
        ≡ entries_of (map declaration_of declarations.now)) }
{
    let mut entries = Vec::new(alloc);
    for declaration in declarations {
        push_declared(&mut entries, declaration)?;
    }
    Ok(entries)
}

// Adds what a declaration declares.
fn push_declared<'t>(
    entries: &mut Vec<Entry<'t>>,
    declaration: &Declaration<'t>,
) -> Result<(), AllocError>
    ensures { OnOk result (map entry_seen entries.new.items
        ≡ map entry_seen entries.old.items ++ entries_in (declaration_of declaration.now)) }
{
    match declaration {
        Declaration::Nodes(_, _) => Ok(()),
        Declaration::Const(_, name, value) => push_constant(entries, *name, value),
        Declaration::Shared(_, items) => push_items(entries, Sort::Shared, items),
        Declaration::Lock(_, items) => push_items(entries, Sort::Lock, items),
        Declaration::Function(_, name, parameters, body) => {
            push_function(entries, *name, parameters, body)
        }
    }
}

fn push_entry<'t>(entries: &mut Vec<Entry<'t>>, entry: Entry<'t>) -> Result<(), AllocError>
    ensures { OnOk result (map entry_seen entries.new.items
        ≡ map entry_seen entries.old.items ++ entry_seen entry.entry ∷ []) }
{
    entries.push(entry)?;
    Ok(())
}

fn push_constant<'t>(
    entries: &mut Vec<Entry<'t>>,
    name: Name<'t>,
    value: &Expression<'t>,
) -> Result<(), AllocError>
    ensures { OnOk result (map entry_seen entries.new.items ≡ map entry_seen entries.old.items
        ++ constant_entry (named_of name.entry) (expression_of value.now) ∷ []) }
{
    let last = value.last();
    push_entry(
        entries,
        Entry {
            name,
            sort: Sort::Constant,
            count: 0,
            last,
        },
    )
}

fn push_function<'t>(
    entries: &mut Vec<Entry<'t>>,
    name: Name<'t>,
    parameters: &[Name<'t>],
    body: &Expression<'t>,
) -> Result<(), AllocError>
    ensures { OnOk result (map entry_seen entries.new.items ≡ map entry_seen entries.old.items
        ++ function_entry (named_of name.entry) (map named_of parameters.now)
        (expression_of body.now) ∷ []) }
{
    let count = parameters.len();
    let last = body.last();
    push_entry(
        entries,
        Entry {
            name,
            sort: Sort::Function,
            count,
            last,
        },
    )
}

// Adds shared items, or locks.
fn push_items<'t>(
    entries: &mut Vec<Entry<'t>>,
    sort: Sort,
    items: &[Place<'t>],
) -> Result<(), AllocError>
    ensures { OnOk result (map entry_seen entries.new.items ≡ map entry_seen entries.old.items
        ++ map (item_entry sort) (map place_of items.now)) }
{
    for item in items {
        push_item(entries, sort, item)?;
    }
    Ok(())
}

fn push_item<'t>(
    entries: &mut Vec<Entry<'t>>,
    sort: Sort,
    item: &Place<'t>,
) -> Result<(), AllocError>
    ensures { OnOk result (map entry_seen entries.new.items ≡ map entry_seen entries.old.items
        ++ item_entry sort (place_of item.now) ∷ []) }
{
    let sizes = item.indices.as_slice();
    let count = sizes.len();
    let last = last_behind(item.name.at, sizes);
    push_entry(
        entries,
        Entry {
            name: item.name,
            sort,
            count,
            last,
        },
    )
}

// The last token of some sizes, or the one before them where there are none.
fn last_behind(before: u32, sizes: &[Expression<'_>]) -> u32
    ensures { result ≡ last_behind before (expressions_of sizes.now) }
{
    let mut last = before;
    for size in sizes {
        last = size.last();
    }
    last
}
