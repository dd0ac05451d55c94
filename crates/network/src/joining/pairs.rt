ghost use Rattle.std.specs.Prelude.{◌≡◌, ◌+◌, ◌<◌, ◌≤◌, ◌↔◌, ℕ, Some, IfOk, OnOk, IsTrue, slice_get, slice_index, length};
ghost use Rattle.drawings.specs.Picture.{Picture, IsSound};
ghost use Rattle.drawings.specs.declared.place.Place.{Place};
ghost use Rattle.drawings.specs.declared.drawn_box.Side.TheVariants.{Left};
ghost use Rattle.network.specs.declared.element.Element.{Element};
ghost use Rattle.network.specs.declared.joining.labels.Pair.{Pair};
ghost use Rattle.network.specs.Links.{IsPinPlace};
ghost use Rattle.network.specs.Apart.{Has};
ghost use Rattle.network.specs.Steps.Listed.{element_seen};
ghost use Rattle.network.specs.Steps.Listing.{AreElementsOf};
ghost use Rattle.network.specs.Steps.Pairs.{AreLaidOut, Leaves, AreLast, IsLeftPair, IsUnder, IsUpperPair, IsNewPair, Adds, ArePairsTo, AreLabels, IsLeftPinPair, StandsInRows, AddsPairsOf, AreLabelsOf};
ghost use Rattle.network.specs.Steps.Rows.{Puts};
ghost use Rattle.network.specs.Steps.Tables.{AreBelow};

use crate::joining::labels::{Pair, settle_labels};
use crate::joining::row_table::RowTable;
use crate::listing::listed::{Elements, Seen};
use drawings::{DrawnBox, Place, Side};
use std::alloc::{AllocError, Global};

/// Adds the pair of an element that state enters at a place with the one on the left of the place, if state leaves that one there.
fn push_left(
    pairs: &mut Vec<Pair>,
    last: &RowTable,
    at: Place,
    element: usize,
) -> Result<(), AllocError>
    requires { at.row < length last.now }
    ensures { OnOk result (Adds (IsLeftPair last.now at element) pairs.old.items pairs.new.items) }
{
    if let Some(left) = last.at(at.row) {
        if left.column < at.column && at.column - left.column == 1 {
            pairs.push(Pair {
                one: left.element,
                other: element,
            })?;
        }
    }
    Ok(())
}

/// Adds the pairs of a box with those on the left of its left pins.
fn push_left_pins(
    pairs: &mut Vec<Pair>,
    last: &RowTable,
    drawn: &DrawnBox,
    element: usize,
) -> Result<(), AllocError>
    requires { (p : Place) → IsPinPlace Left drawn.now p → p.row < length last.now }
    ensures { OnOk result (Adds (IsLeftPinPair last.now drawn.now element) pairs.old.items pairs.new.items) }
{
    let column = drawn.left;
    for pin in drawn.pins.as_slice() {
        if pin.side == Side::Left {
            let row = pin.row;
            push_left(pairs, last, Place { row, column }, element)?;
        }
    }
    Ok(())
}

/// Whether a place is under a place of an upright.
fn is_under(element: Seen, at: Place) -> bool
    ensures { IsTrue result ↔ IsUnder (element_seen element.entry) at }
{
    match element {
        Seen::Join(upper) | Seen::Upright(upper) => {
            upper.column == at.column && upper.row < at.row && at.row - upper.row == 1
        }
        _ => false,
    }
}

/// Adds the pair of an element that stands at a place with the one above it, which is the one before it.
fn push_upper(
    pairs: &mut Vec<Pair>,
    elements: &Elements,
    at: Place,
    element: usize,
) -> Result<(), AllocError>
    requires { element < length elements.now }
    ensures { OnOk result (Adds (IsUpperPair elements.now at element) pairs.old.items pairs.new.items) }
{
    if element == 0 {
        return Ok(());
    }
    let one = element - 1;
    if is_under(elements.at(one), at) {
        pairs.push(Pair {
            one,
            other: element,
        })?;
    }
    Ok(())
}

/// Adds the pairs of an element with those before it.
fn push_pairs(
    pairs: &mut Vec<Pair>,
    last: &RowTable,
    elements: &Elements,
    k: usize,
) -> Result<(), AllocError>
    requires within { k < length elements.now }
    requires rows { StandsInRows elements.now k (length last.now) }
    ensures { OnOk result (AddsPairsOf elements.now last.now k pairs.old.items pairs.new.items) }
{
    match elements.at(k) {
        Seen::Wire(at) => push_left(pairs, last, at, k),
        Seen::Join(at) => {
            push_left(pairs, last, at, k)?;
            push_upper(pairs, elements, at, k)
        }
        Seen::Upright(at) => push_upper(pairs, elements, at, k),
        Seen::Contact(contact) => {
            let row = contact.row;
            let column = contact.column;
            push_left(pairs, last, Place { row, column }, k)
        }
        Seen::Coil(coil) => {
            let row = coil.row;
            let column = coil.column;
            push_left(pairs, last, Place { row, column }, k)
        }
        Seen::Box(drawn) => push_left_pins(pairs, last, drawn, k),
    }
}

/// Puts the last places of an element into their rows.
fn put_last(last: &mut RowTable, element: Seen, k: usize)
    requires { (p : Place) → Has (element_seen element) p → (p.row < length last.old) × (p.column ≤ 240) }
    ensures long { length last.new ≡ length last.old }
    ensures puts { Puts (Leaves (element_seen element.entry)) k last.old last.new }
{
    match element {
        Seen::Wire(at) => last.put(at, k),
        Seen::Join(at) => last.put(at, k),
        Seen::Upright(_) => (),
        Seen::Contact(contact) => {
            let row = contact.row;
            let column = contact.column + 2;
            last.put(Place { row, column }, k);
        }
        Seen::Coil(coil) => {
            let row = coil.row;
            let column = coil.column + 2;
            last.put(Place { row, column }, k);
        }
        Seen::Box(drawn) => last.put_pins(drawn, Side::Right, k),
    }
}

/// The pairs of elements between which state passes.
fn pairs_of(alloc: Global, rows: usize, elements: &Elements) -> Result<Vec<Pair>, AllocError>
    requires { AreLaidOut rows elements.now }
    ensures { IfOk result (λ pairs. ArePairsTo elements.now pairs.items (length elements.now)) }
{
    let mut last = RowTable::new(alloc, rows)?;
    let mut pairs = Vec::with_capacity(alloc, elements.len())?;
    for k in 0..elements.len() {
        push_pairs(&mut pairs, &last, elements, k)?;
        put_last(&mut last, elements.at(k), k);
    }
    Ok(pairs)
}

fn own_labels(alloc: Global, count: usize) -> Result<Vec<usize>, AllocError>
    ensures long { IfOk result (λ labels. length labels.items ≡ count) }
    ensures own { IfOk result (λ labels. (k : ℕ) → k < count → slice_index labels.items k ≡ k) }
{
    let mut labels = Vec::with_capacity(alloc, count)?;
    for k in 0..count {
        labels.push(k)?;
    }
    Ok(labels)
}

/// A label for each element: one for those that a chain joins.
pub fn labels_of(alloc: Global, rows: usize, elements: &Elements) -> Result<Vec<usize>, AllocError>
    requires { AreLaidOut rows elements.now }
    ensures labels { IfOk result (λ labels. AreLabelsOf elements.now labels.items) }
    ensures long { IfOk result (λ labels. length labels.items ≡ length elements.now) }
    ensures within { IfOk result (λ labels. AreBelow (length elements.now) labels.items (length elements.now)) }
{
    let pairs = pairs_of(alloc, rows, elements)?;
    let mut labels = own_labels(alloc, elements.len())?;
    settle_labels(&pairs, &mut labels);
    Ok(labels)
}
