// Names that are found at once.

ghost use Rattle.std.specs.Prelude.{◌≡◌, IfOk, [], map, take};
ghost use Rattle.lrc_named_tree.specs.View.{named_of};
ghost use Rattle.lrc_named_constants.specs.Well.{bytes_of, is_among};
ghost use Rattle.lrc_named_expression_faults.specs.Spelled.{ArePlaces};

use lrc_named_tree::tree::Name;
use std::alloc::{AllocError, Global};
use std::collections::HashMap;

/// Names, each of which is found at once by the bytes that spell it.
#[derive(Drop)]
pub struct Spelled<'s, 'p> {
    pub names: &'s [Name<'p>],
    // The place of each name: of one that stands at several the first.
    places: HashMap<&'p [u8], usize>,
    ghost placed: { ArePlaces names.now places },
}

impl<'s, 'p> Spelled<'s, 'p> {
    /// Returns these names. It fails only if memory runs out.
    pub fn of(alloc: Global, names: &'s [Name<'p>]) -> Result<Spelled<'s, 'p>, AllocError>
        ensures { IfOk result (λ spelled. spelled.names.now ≡ names.now) }
    {
        let mut places = HashMap::new(alloc);
        for i in (0..names.len()).rev() {
            places.insert(names[i].bytes, i)?;
        }
        Ok(Spelled { names, places })
    }

    /// Returns no names.
    pub fn none(alloc: Global) -> Spelled<'s, 'p>
        ensures { result.names.now ≡ [] }
    {
        Spelled {
            names: &[],
            places: HashMap::new(alloc),
        }
    }

    /// Returns whether one of these names is spelled so.
    pub fn has(&self, name: &[u8]) -> bool
        ensures { result ≡ is_among (bytes_of (map named_of self.now.names.now)) name.now }
    {
        self.places.contains_key(name)
    }

    /// Returns whether one of the first so many of these names is spelled so.
    pub fn has_before(&self, count: usize, name: &[u8]) -> bool
        ensures { result ≡ is_among (bytes_of (map named_of (take count self.now.names.now))) name.now }
    {
        match self.places.get(name) {
            Some(place) => *place < count,
            None => false,
        }
    }
}
