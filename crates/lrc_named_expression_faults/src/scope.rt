// What names mean where they are used.

ghost use Rattle.std.specs.Prelude.{◌≡◌, length, map};
ghost use Rattle.std.specs.Str.{bytes_eq};
ghost use Rattle.lrc_named_tree.specs.View.{named_of};
ghost use Rattle.lrc_named_names.specs.View.{declared_of, entry_of};
ghost use Rattle.lrc_named_constants.specs.Constant.{names_of};
ghost use Rattle.lrc_named_constants.specs.View.{known_of};
ghost use Rattle.lrc_named_constants.specs.Well.{bytes_of, is_among};
ghost use Rattle.lrc_named_expression_faults.specs.Scope.{is_shared, lock_sizes, sense_of, shared_sizes, undeclared_sense};

use crate::extent::Extent;
use crate::spelled::Spelled;
use lrc_named_constants::constancy::Known;
use lrc_named_names::names::{Declared, Meaning, Names};
use lrc_named_tree::tree::Name;
use std::alloc::Global;

/// What a name means where it is used.
#[derive(Clone, Copy)]
pub enum Sense<'t, 'n, 'p> {
    /// A parameter of the function in whose body it stands.
    Parameter,
    /// It is declared.
    Declared(&'t Meaning<'n, 'p>),
    /// Some statement sets it, and it is not declared.
    Private,
    Unknown,
}

impl<'t> Sense<'t, '_, '_> {
    ghost use Rattle.lrc_named_expression_faults.specs.View.{sense_seen};

    /// Returns the sizes of a shared item; nothing else has any.
    pub fn shared_sizes(self) -> &'t [u32]
        ensures { result.now ≡ shared_sizes (sense_seen self.entry) }
    {
        match self {
            Sense::Declared(meaning) => match meaning {
                Meaning::Shared(item) => &item.sizes,
                Meaning::Constant(_) | Meaning::Lock(_) | Meaning::Function(_, _) => &[],
            },
            Sense::Parameter | Sense::Private | Sense::Unknown => &[],
        }
    }

    /// Returns the sizes of a lock; nothing else has any.
    pub fn lock_sizes(self) -> &'t [u32]
        ensures { result.now ≡ lock_sizes (sense_seen self.entry) }
    {
        match self {
            Sense::Declared(meaning) => match meaning {
                Meaning::Lock(item) => &item.sizes,
                Meaning::Constant(_) | Meaning::Shared(_) | Meaning::Function(_, _) => &[],
            },
            Sense::Parameter | Sense::Private | Sense::Unknown => &[],
        }
    }

    /// Returns whether it is that of a shared item.
    pub fn is_shared(self) -> bool
        ensures { result ≡ is_shared (sense_seen self.entry) }
    {
        match self {
            Sense::Declared(meaning) => match meaning {
                Meaning::Shared(_) => true,
                Meaning::Constant(_) | Meaning::Lock(_) | Meaning::Function(_, _) => false,
            },
            Sense::Parameter | Sense::Private | Sense::Unknown => false,
        }
    }
}

/// Where an expression or a statement stands.
#[derive(Clone, Copy)]
pub struct Scope<'t, 'n, 'p> {
    pub alloc: Global,
    /// What is declared before it.
    pub names: &'t Names<'n, 'p>,
    /// What stands in the bodies of functions: at the place of each function among the names.
    pub extents: &'t [Extent],
    /// The parameters of the function in whose body it stands, and what is known of them.
    pub known: &'t [Known<'p>],
    /// The names of these parameters.
    pub parameters: &'t Spelled<'t, 'p>,
    /// The names that some statement of the text sets, where these may stand.
    pub assigned: &'t Spelled<'t, 'p>,
    /// Whether it has to be constant: a constant's value, or a size.
    pub is_constant: bool,
    pub ghost alike: { names_of (map known_of known.now) ≡ bytes_of (map named_of parameters.now.names.now) },
}

// Whether a name is spelled so.
fn is_named(one: Name<'_>, name: &[u8]) -> bool
    ensures { result ≡ bytes_eq (named_of one.entry).bytes name.now }
{
    one.bytes == name
}

/// Returns whether one of these names is spelled so.
pub fn is_one_of(names: &[Name<'_>], name: &[u8]) -> bool
    ensures { result ≡ is_among (bytes_of (map named_of names.now)) name.now }
{
    for one in names {
        if is_named(*one, name) {
            return true;
        }
    }
    false
}

// How many names are declared.
fn count_of(declared: &[Declared<'_, '_>]) -> usize
    ensures { result ≡ length (map entry_of declared.now) }
{
    declared.len()
}

impl<'t, 'n, 'p> Scope<'t, 'n, 'p> {
    ghost use Rattle.lrc_named_expression_faults.specs.View.{scope_of, sense_seen};

    /// Returns how many names are declared before it.
    pub fn count(&self) -> usize
        ensures { result ≡ length (declared_of self.now.names.now) }
    {
        count_of(&self.names.declared)
    }

    /// Returns what a name means here.
    pub fn sense(&self, name: &[u8]) -> Sense<'t, 'n, 'p>
        ensures { sense_seen result ≡ sense_of (scope_of self.now) name.now }
    {
        if self.parameters.has(name) {
            return Sense::Parameter;
        }
        match self.names.meaning(self.names.place(name)) {
            Some(meaning) => Sense::Declared(meaning),
            None => self.undeclared(name),
        }
    }

    // What a name means that is not declared.
    fn undeclared(&self, name: &[u8]) -> Sense<'t, 'n, 'p>
        ensures { sense_seen result ≡ undeclared_sense (is_among (scope_of self.now).assigned name.now) }
    {
        if self.assigned.has(name) {
            Sense::Private
        } else {
            Sense::Unknown
        }
    }
}
