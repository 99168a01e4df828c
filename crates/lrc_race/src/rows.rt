// Places in rows.

ghost use Rattle.std.specs.Prelude.{◌≡◌, IfOk, OnOk, []};
ghost use Rattle.lrc_judge.specs.Adding.{Adds};

use crate::places::TouchedPlace;
use std::alloc::{AllocError, Global};
use std::marker::Model;

/// Places in 256 rows, one row after the other. Within a row they are in the order of adding.
#[derive(Drop)]
pub struct Rows {
    rows: Vec<Vec<TouchedPlace>>,
}

impl Model for Rows {
    ghost use Rattle.std.specs.Prelude.{◌≡◌, List, flat_map, length};
    ghost use Rattle.lrc_race.specs.declared.places.TouchedPlace.{TouchedPlace};

    ghost Value = { List TouchedPlace };

    ghost view = { λ r. flat_map (λ row. row.items) r.rows.items };

    ghost invariant = { λ r. length r.rows.items ≡ 256 };
}

impl Rows {
    /// Returns rows without places. It fails only if memory runs out.
    pub fn new(alloc: Global) -> Result<Self, AllocError>
        ensures { IfOk result (λ rows. rows ≡ []) }
    {
        let mut rows = Vec::with_capacity(alloc, 256)?;
        for _ in 0..256_usize {
            rows.push(Vec::new(alloc))?;
        }
        Ok(Rows { rows })
    }

    /// Adds a place to a row. It fails only if memory runs out.
    pub fn push(&mut self, row: u8, place: TouchedPlace) -> Result<(), AllocError>
        ensures { OnOk result (Adds self.old self.new (λ p. p ≡ place)) }
    {
        self.rows[usize::from(row)].push(place)?;
        Ok(())
    }

    // How many places there are.
    fn len(&self) -> usize {
        let mut len = 0_usize;
        for row in self.rows.as_slice() {
            len = len.saturating_add(row.len());
        }
        len
    }

    /// Returns the places, row by row. It fails only if memory runs out.
    pub fn joined(&self, alloc: Global) -> Result<Vec<TouchedPlace>, AllocError>
        ensures { IfOk result (λ places. places.items ≡ self.now) }
    {
        let mut places = Vec::with_capacity(alloc, self.len())?;
        for row in self.rows.as_slice() {
            places.extend_from_slice(row.as_slice())?;
        }
        Ok(places)
    }
}
