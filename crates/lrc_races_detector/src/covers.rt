// Of each variable, its last access, where all others of it happen before that. What comes behind it comes behind all, and
// need not look at each.
ghost use Rattle.std.specs.Prelude.{◌≡◌, [], OnOk};
ghost use Rattle.std.specs.Bool.{OnTrue};
ghost use Rattle.lrc_races_detector.specs.Covers.{cover_of, IsCoverKnown, IsCoverSet};
ghost use Rattle.lrc_races_detector.specs.Vectors.{entries};

use crate::vectors::Known;
use std::alloc::{AllocError, Global};

/// An access.
#[derive(Clone, Copy)]
pub struct Cover {
    pub thread: u32,
    pub position: u64,
}

/// For each variable, its last access, if each access of the variable is that one or happens before it.
#[derive(Drop)]
pub struct Covers {
    covers: Vec<Option<Cover>>,
}

impl Covers {
    /// Returns the covers before any access.
    pub fn new(alloc: Global) -> Covers
        ensures { result.covers.items ≡ [] }
    {
        Covers {
            covers: Vec::new(alloc),
        }
    }

    fn cover(&self, variable: usize) -> Option<Cover>
        ensures { result ≡ cover_of self.now variable }
    {
        match self.covers.get(variable) {
            Some(cover) => *cover,
            None => None,
        }
    }

    /// Whether the variable has such an access, and it is known.
    pub fn is_known(&self, variable: usize, known: Known<'_>) -> bool
        ensures { OnTrue result (IsCoverKnown (cover_of self.now variable) (entries known.entry)) }
    {
        match self.cover(variable) {
            Some(cover) => cover.position < known.of(cover.thread),
            None => false,
        }
    }

    /// Sets the access of a variable, or that there is none. It fails if memory runs out.
    pub fn set(&mut self, variable: usize, cover: Option<Cover>) -> Result<(), AllocError>
        ensures { OnOk result (IsCoverSet self.old self.new variable cover) }
    {
        while self.covers.len() <= variable {
            self.covers.push(None)?;
        }
        self.covers[variable] = cover;
        Ok(())
    }
}
