ghost use Rattle.std.specs.Prelude.{◌≡◌, ◌↔◌, IfOk, IsTrue, Contains};
ghost use Rattle.drawings.specs.Picture.{IsSound};
ghost use Rattle.network.specs.Networks.{AreLeftRails};

use crate::places::numbering::{Numbering, index_of};
use drawings::{Drawing, Mark, Place};
use std::alloc::{AllocError, Global};
use std::marker::Model;

/// The places of the left rail, by row.
pub fn rails_of(alloc: Global, drawing: &Drawing) -> Result<Vec<Place>, AllocError>
    requires { IsSound drawing.now }
    ensures { IfOk result (λ rails. AreLeftRails drawing.now rails.items) }
{
    let mut rails = Vec::new(alloc);
    let column = drawing.left();
    for row in 1..drawing.rows() + 1 {
        if drawing.mark(row, column) == Mark::Rail {
            rails.push(Place { row, column })?;
        }
    }
    Ok(rails)
}

/// The places of the left rail, found by row and column.
#[derive(Drop)]
pub struct Rails<'a> {
    places: &'a [Place],
    index: Numbering,
}

impl<'a> Model for Rails<'a> {
    ghost use Rattle.std.specs.Prelude.{List};
    ghost use Rattle.drawings.specs.declared.place.Place.{Place};
    ghost use Rattle.network.specs.Steps.Numbers.{IsIndex};

    ghost Value = { List Place };

    ghost view = { λ r. r.places.now };

    ghost invariant = { λ r. IsIndex r.places.now r.index };
}

impl<'a> Rails<'a> {
    pub fn new(alloc: Global, places: &'a [Place]) -> Result<Self, AllocError>
        ensures { IfOk result (λ r. r ≡ places.now) }
    {
        let index = index_of(alloc, places)?;
        Ok(Rails { places, index })
    }

    /// Whether the left rail stands at a place.
    pub fn has(&self, place: Place) -> bool
        ensures { IsTrue result ↔ Contains self.now place }
    {
        self.index.find(place).is_some()
    }
}
