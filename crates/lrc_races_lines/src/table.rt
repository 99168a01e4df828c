// Names and their numbers.
ghost use Rattle.std.specs.Prelude.{◌≡◌, ◌≢◌, [], AllPairs, IfOk, OnErr, OnOk, length, option_map, slice_get};
ghost use Rattle.lrc_races_lines.specs.Table.{names_of, IsNumbered};

use indexmap::IndexSet;
use std::alloc::{AllocError, Global};

/// A table that numbers names 0, 1, 2 and so on, in the order in which they are first mentioned. A table is for names
/// of one kind: a thread and a lock of the same name are two things.
#[derive(Drop)]
pub struct Table {
    names: IndexSet<Vec<u8>>,
}

impl Table {
    /// Returns the table without names.
    pub fn new(alloc: Global) -> Table
        ensures { names_of result ≡ [] }
    {
        Table {
            names: IndexSet::new(alloc),
        }
    }

    /// Returns the number of names.
    pub fn count(&self) -> usize
        ensures { result ≡ length (names_of self.now) }
    {
        self.names.len()
    }

    /// Returns the name with this number, or none if no name has it.
    pub fn name(&self, number: usize) -> Option<&[u8]>
        ensures { option_map (λ name. name.now) result ≡ slice_get (names_of self.now) number }
    {
        match self.names.get_index(number) {
            Some(name) => Some(name.as_slice()),
            None => None,
        }
    }

    /// Returns the number of a name. A known name keeps its number; a new one gets the next. If memory runs out, it
    /// fails and the table is unchanged.
    pub fn number(&mut self, name: &[u8]) -> Result<usize, AllocError>
        ensures numbered { IfOk result (λ number. IsNumbered (names_of self.old) name.now
            (names_of self.new) number) }
        ensures distinct { OnOk result (AllPairs (λ x y. x ≢ y) (names_of self.new)) }
        ensures unchanged { OnErr result (names_of self.new ≡ names_of self.old) }
    {
        let next = self.names.len();
        if let Some((number, _met)) = self.names.get_full(name) {
            return Ok(number);
        }
        let alloc = *self.names.allocator();
        self.names.insert(Vec::from_slice(alloc, name)?)?;
        Ok(next)
    }
}
