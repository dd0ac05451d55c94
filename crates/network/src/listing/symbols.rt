ghost use Rattle.std.specs.Prelude.{◌≡◌, IfOk, MatchOption, position};
ghost use Rattle.drawings.specs.declared.place.Place.{Place};
ghost use Rattle.drawings.specs.Picture.{IsSound, mark_at};
ghost use Rattle.drawings.specs.declared.mark.Mark.TheVariants.{ContactPart, CoilPart, BoxPart};
ghost use Rattle.network.specs.Links.{place};
ghost use Rattle.network.specs.Networks.{IsElementOf};
ghost use Rattle.network.specs.Steps.Listing.{IsNoElementAt, IsEntryAt};
ghost use Rattle.network.specs.Steps.Numbers.{IsIndex};
ghost use Rattle.network.specs.Steps.Symbols.{symbol_places, box_places, AreSymbols, IsInside, TellsNumber, TellsNumberOutside, GainsInside, is_symbol_at, BeginNowhereInside};

use crate::listing::listed::{Entry, number_of};
use crate::listing::symbol_rows::SymbolRows;
use crate::places::numbering::{Numbering, index_of};
use drawings::{Drawing, DrawnBox, Mark, Place, Symbol};
use std::alloc::{AllocError, Global};

/// How far contacts and coils are read, and where boxes begin, to find each by its place.
#[derive(Drop)]
pub struct Symbols {
    pub contacts: SymbolRows,
    pub coils: SymbolRows,
    pub boxes: Numbering,
}

fn box_places_of(alloc: Global, boxes: &[DrawnBox]) -> Result<Vec<Place>, AllocError>
    ensures { IfOk result (λ places. places.items ≡ box_places boxes.now) }
{
    let corner = |drawn: &DrawnBox| Place {
        row: drawn.top,
        column: drawn.left,
    };
    boxes.iter().map(corner).collect(alloc)
}

/// The rows of contacts or coils, with the number of the first one of each, in so many rows.
fn symbol_rows<Kind>(
    alloc: Global,
    count: usize,
    symbols: &[Symbol<Kind>],
) -> Result<SymbolRows, AllocError>
    ensures { IfOk result (λ rows. (p : Place) → IsInside rows p → ⊥) }
{
    let mut rows = SymbolRows::new(alloc, count)?;
    let mut row = 0;
    for k in 0..symbols.len() {
        if symbols[k].row != row {
            row = symbols[k].row;
            rows.expect(row, k);
        }
    }
    Ok(rows)
}

/// No contact or coil is read yet, and boxes are where they begin.
pub fn symbols_of(alloc: Global, drawing: &Drawing) -> Result<Symbols, AllocError>
    ensures { IfOk result (λ symbols. AreSymbols drawing.now symbols) }
{
    let boxes = box_places_of(alloc, drawing.boxes())?;
    let count = drawing.rows() + 1;
    Ok(Symbols {
        contacts: symbol_rows(alloc, count, drawing.contacts())?,
        coils: symbol_rows(alloc, count, drawing.coils())?,
        boxes: index_of(alloc, &boxes)?,
    })
}

fn is_symbol_at<Kind>(symbol: &Symbol<Kind>, at: Place) -> bool
    ensures { result ≡ is_symbol_at at symbol.now }
{
    symbol.row == at.row && symbol.column == at.column
}

fn symbol_position<Kind>(symbols: &[Symbol<Kind>], at: Place) -> Option<usize>
    ensures { result ≡ position (is_symbol_at at) symbols.now }
{
    symbols.iter().position(|symbol| is_symbol_at(symbol, at))
}

/// The number of the symbol that begins at a place. Symbols come by row and column, so the next one of the row is looked at first.
fn symbol_number<Kind>(symbols: &[Symbol<Kind>], next: usize, at: Place) -> Option<usize>
    ensures { TellsNumber (symbol_places symbols.now) at result }
{
    if next < symbols.len() && is_symbol_at(&symbols[next], at) {
        return Some(next);
    }
    symbol_position(symbols, at)
}

/// The number of the symbol that begins at a place, which is noted; none where the place is inside one that was found.
fn found_number<Kind>(symbols: &[Symbol<Kind>], rows: &mut SymbolRows, at: Place) -> Option<usize>
    ensures number { TellsNumberOutside rows.old (symbol_places symbols.now) at result }
    ensures rows { GainsInside rows.old rows.new at result }
{
    if rows.is_inside(at) {
        return None;
    }
    let k = symbol_number(symbols, rows.next(at.row), at)?;
    rows.found(at, k);
    Some(k)
}

/// The contact that begins at a place.
pub fn contact_at(
    drawing: &Drawing,
    rows: &mut SymbolRows,
    at: Place,
) -> Result<Option<Entry>, AllocError>
    requires rows { BeginNowhereInside drawing.now rows.old }
    requires sound { IsSound drawing.now }
    requires mark { mark_at drawing.now at.row at.column ≡ ContactPart }
    ensures found { IfOk result (λ e. MatchOption e (IsNoElementAt drawing.now at) (IsEntryAt drawing.now at)) }
    ensures rows { BeginNowhereInside drawing.now rows.new }
{
    match found_number(drawing.contacts(), rows, at) {
        Some(k) => Ok(Some(Entry::Contact(number_of(k)?))),
        None => Ok(None),
    }
}

/// The coil that begins at a place.
pub fn coil_at(
    drawing: &Drawing,
    rows: &mut SymbolRows,
    at: Place,
) -> Result<Option<Entry>, AllocError>
    requires rows { BeginNowhereInside drawing.now rows.old }
    requires sound { IsSound drawing.now }
    requires mark { mark_at drawing.now at.row at.column ≡ CoilPart }
    ensures found { IfOk result (λ e. MatchOption e (IsNoElementAt drawing.now at) (IsEntryAt drawing.now at)) }
    ensures rows { BeginNowhereInside drawing.now rows.new }
{
    match found_number(drawing.coils(), rows, at) {
        Some(k) => Ok(Some(Entry::Coil(number_of(k)?))),
        None => Ok(None),
    }
}

/// The box that begins at a place.
pub fn box_at(drawing: &Drawing, index: &Numbering, at: Place) -> Result<Option<Entry>, AllocError>
    requires index { IsIndex (box_places drawing.now.boxes) index.now }
    requires sound { IsSound drawing.now }
    requires mark { mark_at drawing.now at.row at.column ≡ BoxPart }
    ensures { IfOk result (λ e. MatchOption e (IsNoElementAt drawing.now at) (IsEntryAt drawing.now at)) }
{
    let Some(k) = index.owner(at) else {
        return Ok(None);
    };
    Ok(Some(Entry::Box(number_of(k)?)))
}
