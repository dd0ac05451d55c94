ghost use Rattle.std.specs.Prelude.{◌≡◌, ◌+◌, ◌++◌, ◌∷◌, [], ◌<◌, ◌^◌, MatchOption, IfOk, OnOk};
ghost use Rattle.drawings.specs.Picture.{IsSound};
ghost use Rattle.network.specs.Links.{place};
ghost use Rattle.network.specs.Steps.Listed.{stand_for};
ghost use Rattle.network.specs.Steps.Listing.{AreElementsBefore, AreElementsOf, AddsFound};
ghost use Rattle.network.specs.Steps.Symbols.{AreSymbols};

use crate::listing::listed::{Elements, Entry, ShortPlace};
use crate::listing::symbols::{Symbols, box_at, coil_at, contact_at, symbols_of};
use drawings::{Drawing, Mark, Place};
use std::alloc::{AllocError, Global};

/// Adds an entry at the end.
fn push(elements: &mut Vec<Entry>, element: Entry) -> Result<(), AllocError>
    ensures { OnOk result (elements.new.items ≡ elements.old.items ++ element ∷ []) }
{
    elements.push(element)?;
    Ok(())
}

/// Adds an entry at the end, if there is one.
fn push_found(elements: &mut Vec<Entry>, found: Option<Entry>) -> Result<(), AllocError>
    ensures { OnOk result (AddsFound found elements.old.items elements.new.items) }
{
    match found {
        Some(element) => push(elements, element),
        None => Ok(()),
    }
}

/// Adds the element that begins at a place, if there is one.
fn push_at(
    elements: &mut Vec<Entry>,
    drawing: &Drawing,
    symbols: &mut Symbols,
    at: Place,
) -> Result<(), AllocError>
    requires symbols { AreSymbols drawing.now symbols.old }
    requires sound { IsSound drawing.now }
    requires row { at.row < 2 ^ 16 }
    requires column { at.column < 2 ^ 16 }
    requires before { AreElementsBefore drawing.now at (stand_for drawing.now elements.old.items) }
    ensures elements { OnOk result (AreElementsBefore drawing.now (place (at.row + 1) at.column) (stand_for drawing.now elements.new.items)) }
    ensures symbols { OnOk result (AreSymbols drawing.now symbols.new) }
{
    match drawing.mark(at.row, at.column) {
        Mark::Blank | Mark::Rail => Ok(()),
        Mark::Wire => push(elements, Entry::Wire(ShortPlace::new(at))),
        Mark::Join => push(elements, Entry::Join(ShortPlace::new(at))),
        Mark::Upright => push(elements, Entry::Upright(ShortPlace::new(at))),
        Mark::ContactPart => {
            let contact = contact_at(drawing, &mut symbols.contacts, at)?;
            push_found(elements, contact)
        }
        Mark::CoilPart => {
            let coil = coil_at(drawing, &mut symbols.coils, at)?;
            push_found(elements, coil)
        }
        Mark::BoxPart => {
            let boxed = box_at(drawing, &symbols.boxes, at)?;
            push_found(elements, boxed)
        }
    }
}

/// Adds the elements that begin in a column, by row.
fn push_column(
    elements: &mut Vec<Entry>,
    drawing: &Drawing,
    symbols: &mut Symbols,
    column: usize,
) -> Result<(), AllocError>
    requires symbols { AreSymbols drawing.now symbols.old }
    requires sound { IsSound drawing.now }
    requires column { column < 2 ^ 16 }
    requires before { AreElementsBefore drawing.now (place 0 column) (stand_for drawing.now elements.old.items) }
    ensures elements { OnOk result (AreElementsBefore drawing.now (place 0 (column + 1)) (stand_for drawing.now elements.new.items)) }
    ensures symbols { OnOk result (AreSymbols drawing.now symbols.new) }
{
    for row in 1..drawing.rows() + 1 {
        if drawing.mark(row, column) != Mark::Blank {
            push_at(elements, drawing, symbols, Place { row, column })?;
        }
    }
    Ok(())
}

/// All elements of the drawing, by column and then row.
pub fn elements_of(alloc: Global, drawing: &Drawing) -> Result<Elements<'_>, AllocError>
    requires { IsSound drawing.now }
    ensures { IfOk result (AreElementsOf drawing.now) }
{
    let mut symbols = symbols_of(alloc, drawing)?;
    let mut elements = Vec::new(alloc);
    for column in 1..drawing.columns() + 1 {
        push_column(&mut elements, drawing, &mut symbols, column)?;
    }
    Ok(Elements::new(drawing, elements))
}
