ghost use Rattle.std.specs.Prelude.{◌≡◌, ◌+◌, max, ◌≤◌, ◌↔◌, ◌⊎◌, ℕ, IfOk, OnOk, IsTrue, Any, Contains, Option, Some, slice_get, length};
ghost use Rattle.drawings.specs.declared.place.Place.{Place};
ghost use Rattle.network.specs.Apart.{first_place};
ghost use Rattle.network.specs.Networks.{lowest_row};
ghost use Rattle.network.specs.Steps.Ranks.{ArePlaces, BeginsAt, IsUnmetAt, IsTall, IsTallAt};
ghost use Rattle.network.specs.Steps.Twice.{IsTwiceIn};
ghost use Rattle.network.specs.Steps.Tables.{AreSuch};

use crate::element::Element;
use crate::listing::listed::Elements;
use crate::networks::Network;
use crate::seeking::corners::{corner_of, corners_of, is_twice};
use drawings::{DrawnBox, Place};
use std::alloc::{AllocError, Global};

/// Where the elements without a rank begin.
pub fn unmet_places(
    alloc: Global,
    elements: &Elements,
    ranks: &[Option<u32>],
) -> Result<Vec<Place>, AllocError>
    requires { length ranks.now ≡ length elements.now }
    ensures { IfOk result (λ places. ArePlaces (IsUnmetAt elements.now ranks.now (length elements.now)) places.items) }
{
    let mut places = Vec::new(alloc);
    for k in 0..elements.len() {
        if ranks[k].is_none() {
            places.push(elements.at(k).first_place())?;
        }
    }
    Ok(places)
}

fn lowest_row_of(element: &Element) -> usize
    ensures { result ≡ lowest_row element.now }
{
    match element {
        Element::Box(boxed) => boxed.drawn().bottom,
        _ => element.first_place().row,
    }
}

fn greater(row: usize, other: usize) -> usize
    ensures { result ≡ max row other }
{
    if row < other { other } else { row }
}

/// Whether the elements have more than 200 rows.
fn is_tall(elements: &[Element]) -> bool
    ensures { IsTrue result ↔ IsTall elements.now }
{
    let mut top = usize::MAX;
    let mut bottom = 0;
    for element in elements {
        top = top.min(element.first_place().row);
        bottom = greater(bottom, lowest_row_of(element));
    }
    bottom.saturating_sub(top) >= 200
}

/// Adds the places where the elements begin.
fn push_firsts(places: &mut Vec<Place>, elements: &[Element]) -> Result<(), AllocError>
    ensures each { OnOk result (AreSuch (λ p. Contains places.old.items p ⊎ BeginsAt elements.now p) places.new.items) }
    ensures kept { OnOk result ((p : Place) → Contains places.old.items p → Contains places.new.items p) }
    ensures added { OnOk result ((p : Place) → BeginsAt elements.now p → Contains places.new.items p) }
{
    for element in elements {
        places.push(element.first_place())?;
    }
    Ok(())
}

/// Where the elements of networks of more than 200 rows begin.
pub fn tall_places(alloc: Global, networks: &[Network]) -> Result<Vec<Place>, AllocError>
    ensures { IfOk result (λ places. ArePlaces (IsTallAt networks.now (length networks.now)) places.items) }
{
    let mut places = Vec::new(alloc);
    for k in 0..networks.len() {
        let elements = networks[k].elements();
        if is_tall(elements) {
            push_firsts(&mut places, elements)?;
        }
    }
    Ok(places)
}

/// The corners of the boxes with the name of an earlier one.
pub fn twice_places(alloc: Global, boxes: &[DrawnBox]) -> Result<Vec<Place>, AllocError>
    ensures { IfOk result (λ places. ArePlaces (IsTwiceIn boxes.now (length boxes.now)) places.items) }
{
    let corners = corners_of(alloc, boxes)?;
    let mut places = Vec::new(alloc);
    for k in 0..boxes.len() {
        let drawn = &boxes[k];
        let twice = is_twice(alloc, &corners, drawn)?;
        if twice {
            places.push(corner_of(drawn))?;
        }
    }
    Ok(places)
}
