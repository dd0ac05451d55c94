ghost use Rattle.std.specs.Prelude.{◌≡◌, ◌≢◌, ◌≤◌, ℕ, List, IfOk, OnOk, Some, length, slice_get};
ghost use Rattle.drawings.specs.declared.place.Place.{Place};
ghost use Rattle.network.specs.Steps.Numbers.{number_at, IsIndex, KeepsNumbers};
ghost use Rattle.network.specs.Steps.Tables.{Keeps, HasNoOther};

use crate::places::number_row::NumberRow;
use drawings::Place;
use std::alloc::{AllocError, Global};
use std::marker::Model;

/// A place to which state can come, with the number of the element that it belongs to.
#[derive(Clone, Copy, Debug, PartialEq, Eq)]
pub struct Spot {
    pub place: Place,
    pub element: usize,
}

/// The places to which state can come, each once, found by row and column.
#[derive(Drop)]
pub struct Numbering {
    alloc: Global,
    spots: Vec<Spot>,
    /// The number of each place, by row and column; elsewhere any number.
    rows: Vec<NumberRow>,
}

impl Model for Numbering {
    ghost use Rattle.std.specs.Prelude.{List};
    ghost use Rattle.network.specs.declared.places.numbering.Spot.{Spot};
    ghost use Rattle.network.specs.Steps.Numbers.{AreNumbers};

    ghost Value = { List Spot };

    ghost view = { λ n. n.spots.items };

    ghost invariant = { λ n. AreNumbers n.spots.items n.rows.items };
}

/// Adds rows without numbers, until there are so many.
fn add_rows(alloc: Global, rows: &mut Vec<NumberRow>, count: usize) -> Result<(), AllocError>
    ensures kept { Keeps rows.old.items rows.new.items }
    ensures many { OnOk result (count ≤ length rows.new.items) }
{
    for _row in rows.len()..count {
        rows.push(NumberRow::new(alloc))?;
    }
    Ok(())
}

/// Writes the number of a place into its row.
fn put_number(
    alloc: Global,
    rows: &mut Vec<NumberRow>,
    place: Place,
    number: usize,
) -> Result<(), AllocError>
    ensures here { OnOk result (number_at rows.new.items place ≡ Some number) }
    ensures kept { KeepsNumbers place rows.old.items rows.new.items }
{
    add_rows(alloc, rows, place.row.saturating_add(1))?;
    rows[place.row].put(place.column, number)?;
    Ok(())
}

/// The number that is written at a place.
fn number_at(rows: &[NumberRow], place: Place) -> Option<usize>
    ensures { result ≡ number_at rows.now place }
{
    rows.get(place.row)?.get(place.column)
}

fn spot_at(spots: &[Spot], number: usize) -> Option<Spot>
    ensures { result ≡ slice_get spots.now number }
{
    spots.get(number).copied()
}

impl Numbering {
    ghost use Rattle.network.specs.declared.places.numbering.Spot.{Spot};
    ghost use Rattle.std.specs.Prelude.{◌≡◌, ◌⊎◌, ◌↔◌, ℕ, [], ◌∷◌, ◌++◌, Some, IfOk, OnOk, MatchOption, slice_get, length};
    ghost use Rattle.network.specs.Steps.Numbers.{IsSpot, IsNoSpot, IsOwner, spot};

    /// Without numbers, with room for so many.
    pub fn with_capacity(alloc: Global, capacity: usize) -> Result<Self, AllocError>
        ensures { IfOk result (λ n. n ≡ []) }
    {
        let spots = Vec::with_capacity(alloc, capacity)?;
        Ok(Numbering {
            alloc,
            spots,
            rows: Vec::new(alloc),
        })
    }

    /// The number of a place.
    pub fn find(&self, place: Place) -> Option<usize>
        ensures { (k : ℕ) → (result ≡ Some k) ↔ IsSpot self.now k place }
    {
        let number = number_at(&self.rows, place)?;
        let spot = spot_at(&self.spots, number)?;
        if spot.place == place {
            Some(number)
        } else {
            None
        }
    }

    /// The number of the element that a place belongs to.
    pub fn owner(&self, place: Place) -> Option<usize>
        ensures at { MatchOption result (IsNoSpot self.now place) (IsOwner self.now place) }
        ensures only { (k e : ℕ) → slice_get self.now k ≡ Some (spot place e) → result ≡ Some e }
    {
        let number = self.find(place)?;
        Some(self.spots[number].element)
    }

    /// The number of a place, which is added if it is new.
    pub fn number(&mut self, place: Place, element: usize) -> Result<usize, AllocError>
        ensures found { IfOk result (λ k. IsSpot self.new k place) }
        ensures kept { OnOk result (Keeps self.old self.new) }
        ensures each { OnOk result (HasNoOther (spot place element) self.old self.new) }
    {
        if let Some(number) = self.find(place) {
            return Ok(number);
        }
        let number = self.spots.len();
        put_number(self.alloc, &mut self.rows, place, number)?;
        self.spots.push(Spot { place, element })?;
        Ok(number)
    }
}

/// The places with their positions, from the last one on: so that each row gets its room at once.
pub fn index_of(alloc: Global, places: &[Place]) -> Result<Numbering, AllocError>
    ensures { IfOk result (λ index. IsIndex places.now index) }
{
    let mut index = Numbering::with_capacity(alloc, places.len())?;
    let mut k = places.len();
    while k > 0 {
        k -= 1;
        index.number(places[k], k)?;
    }
    Ok(index)
}
