// What names mean that are no parameters.

ghost use Rattle.std.specs.Prelude.{◌≡◌, Some};
ghost use Rattle.lrc_named_names.specs.Names.{meaning_of, shared};
ghost use Rattle.lrc_named_names.specs.View.{declared_of, item_of};
ghost use Rattle.lrc_named_constants.specs.Well.{HasValue};
ghost use Rattle.lrc_named_translation.specs.Meanings.{IsShared, IsKind};

use lrc_named_names::item::Item;
use lrc_named_names::names::{Meaning, Names};

/// What a name without arguments is.
#[derive(Clone, Copy)]
pub enum NameKind {
    /// A private name.
    Private,
    /// A constant, with its value.
    Constant(u64),
    /// A shared word, or an array of words.
    Shared,
}

/// Returns what a name is that has a value and is no parameter.
pub fn kind_of(names: &Names<'_, '_>, name: &[u8]) -> NameKind
    requires { HasValue (meaning_of (declared_of names.now) name.now) }
    ensures { IsKind result (meaning_of (declared_of names.now) name.now) }
{
    match names.meaning(names.place(name)) {
        None => NameKind::Private,
        Some(Meaning::Constant(n)) => NameKind::Constant(*n),
        Some(Meaning::Shared(_)) => NameKind::Shared,
        _ => unreachable!(),
    }
}

/// Returns the shared item of this name.
pub fn shared_item<'n>(names: &'n Names<'_, '_>, name: &[u8]) -> &'n Item
    requires { IsShared (meaning_of (declared_of names.now) name.now) }
    ensures { meaning_of (declared_of names.now) name.now ≡ Some (shared (item_of result.now)) }
{
    match names.meaning(names.place(name)) {
        Some(Meaning::Shared(item)) => item,
        _ => unreachable!(),
    }
}
