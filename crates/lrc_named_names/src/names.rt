// The table of what is declared.

ghost use Rattle.lrc_named_names.specs.Places.{ArePlaces};

use crate::item::Item;
use lrc_named_tree::tree::{Expression, Name};
use std::alloc::{AllocError, Global};
use std::collections::HashMap;

/// What a declared name means.
#[derive(Drop)]
pub enum Meaning<'n, 'p> {
    /// A constant, with its value.
    Constant(u64),
    /// A shared word, or an array of words.
    Shared(Item),
    /// A lock, or an array of locks.
    Lock(Item),
    /// A function: its parameters, and its body.
    Function(&'n [Name<'p>], &'n Expression<'p>),
}

/// A declared name.
#[derive(Drop)]
pub struct Declared<'n, 'p> {
    /// The bytes that spell it.
    pub name: &'p [u8],
    pub meaning: Meaning<'n, 'p>,
}

/// What is declared, in the order of the text.
#[derive(Drop)]
pub struct Names<'n, 'p> {
    pub declared: Vec<Declared<'n, 'p>>,
    // The place of each declared name: of one that is declared more than once the first.
    places: HashMap<&'p [u8], usize>,
    ghost placed: { ArePlaces declared.items places },
}

impl<'n, 'p> Names<'n, 'p> {
    ghost use Rattle.std.specs.Prelude.{◌≡◌, ◌++◌, ◌∷◌, [], OnErr, OnOk, Some, map, option_map};
    ghost use Rattle.lrc_named_tree.specs.View.{named_of, expression_of};
    ghost use Rattle.lrc_named_names.specs.Names.{IsFunction, function, meaning_at, place_of};
    ghost use Rattle.lrc_named_names.specs.View.{declared_of, entry_of, meaning_seen};

    /// Returns the table in which nothing is declared.
    pub fn new(alloc: Global) -> Names<'n, 'p>
        ensures { declared_of result ≡ [] }
    {
        Names {
            declared: Vec::new(alloc),
            places: HashMap::new(alloc),
        }
    }

    /// Declares a name, behind those that are declared. It fails only if memory runs out; then nothing is declared.
    pub fn declare(&mut self, declared: Declared<'n, 'p>) -> Result<(), AllocError>
        ensures declared { OnOk result (declared_of self.new
            ≡ declared_of self.old ++ entry_of declared.entry ∷ []) }
        ensures unchanged { OnErr result (declared_of self.new ≡ declared_of self.old) }
    {
        let name = declared.name;
        let place = self.declared.len();
        self.declared.push(declared)?;
        if self.places.contains_key(name) {
            return Ok(());
        }
        match self.places.insert(name, place) {
            Ok(_) => Ok(()),
            Err(_) => {
                self.declared.pop();
                Err(AllocError)
            }
        }
    }

    /// Returns the place of a name among the declared ones; of a name that is not declared, how many these are.
    pub fn place(&self, name: &[u8]) -> usize
        ensures { result ≡ place_of (declared_of self.now) name.now }
    {
        match self.places.get(name) {
            Some(place) => *place,
            None => self.declared.len(),
        }
    }

    /// Returns what the name at a place means, if there is one.
    pub fn meaning(&self, place: usize) -> Option<&Meaning<'n, 'p>>
        ensures { option_map (λ m. meaning_seen m.now) result
            ≡ meaning_at (declared_of self.now) place }
    {
        match self.declared.get(place) {
            Some(declared) => Some(&declared.meaning),
            None => None,
        }
    }

    /// Returns the parameters and the body of the function at a place.
    pub fn function(&self, place: usize) -> (&'n [Name<'p>], &'n Expression<'p>)
        requires { IsFunction (meaning_at (declared_of self.now) place) }
        ensures { meaning_at (declared_of self.now) place
            ≡ Some (function (map named_of result.0.now) (expression_of result.1.now)) }
    {
        match self.meaning(place) {
            Some(Meaning::Function(parameters, body)) => (*parameters, *body),
            _ => unreachable!(),
        }
    }
}
