//! The boxes of a text: sides, pins and operands.

ghost use Rattle.std.specs.Prelude.{◌≡◌, ◌==◌, ◌+◌, ◌-◌, ◌<◌, ◌≤◌, ◌^◌, ℕ, false, IsFalse, IsTrue, IfNone, IfSome, IfOk};
ghost use Rattle.ladder_rows.specs.Rows.{char_at, width, run_back};
ghost use Rattle.std.specs.Prelude.{map};
ghost use Rattle.ladder_rows.specs.Faults.{bad_box, NowhereInRows};
ghost use Rattle.ladder_rows.specs.Steps.Search.{NowhereInRow, PassesAt, IsFirstToPass, HasNoCorner};
ghost use Rattle.drawings.specs.declared.drawn_box.Side.TheVariants as side;
ghost use Rattle.ladder_rows.specs.Boxes.{blank_words, bottom_row, word_start, word_end, left_operand, right_operand, operand_beside, side_pin, nearer_pin, blanks_before, blanks_behind, pins_from, row_pins, pins_of_rows, is_edge, begins_box, outline_at, box_at, row_outlines, outlines};
ghost use Rattle.std.specs.Bool.{OnFalse};
ghost use Rattle.std.specs.Str.{IsAscii};

use crate::boxes::outline::Outline;
use crate::characters::grid::{Grid, without_leading};
use crate::characters::rows::trimmed;
use drawings::{DrawnPin, Operand, Pins, Place, Side};
use std::alloc::{AllocError, Global};
use words::{Text, is_identifier, is_word_char};

/// The words between blanks.
fn blank_words(alloc: Global, text: &[u8]) -> Result<Vec<&[u8]>, AllocError>
    ensures { IfOk result (λ v. map (λ w. w.now) v.items ≡ blank_words text.now) }
{
    let mut words = Vec::new(alloc);
    for word in text.split(|c| *c == b' ') {
        if !word.is_empty() {
            words.push(word)?;
        }
    }
    Ok(words)
}

/// How many dashes end right before a column.
fn dashes_before(grid: &Grid, row: usize, column: usize) -> usize
    ensures { result ≡ run_back (λ k. char_at grid.now row k == 45) (column - 1) column }
{
    let mut n = 0;
    while n < column && grid.at(row, column - 1 - n) == b'-' {
        n += 1;
    }
    n
}

/// The first column of the word that ends at a place.
fn word_start(grid: &Grid, row: usize, column: usize) -> usize
    requires { column < 2 ^ 62 }
    ensures { result ≡ word_start grid.now row column }
{
    let mut n = 0;
    while n < column && is_word_char(grid.at(row, column - n)) {
        n += 1;
    }
    column + 1 - n
}

/// The end of the word that begins at a place.
fn word_end(grid: &Grid, row: usize, column: usize) -> usize
    requires { column < 2 ^ 62 }
    ensures { result ≡ word_end grid.now row column }
{
    let limit = grid.last();
    let mut n = 0;
    while n < limit && is_word_char(grid.at(row, column + n)) {
        n += 1;
    }
    column + n
}

fn left_operand(
    alloc: Global,
    grid: &Grid,
    row: usize,
    column: usize,
) -> Result<Option<Operand>, AllocError>
    requires { column < 2 ^ 62 }
    ensures { IfOk result (λ o. o ≡ left_operand grid.now row column) }
{
    let dashes = dashes_before(grid, row, column);
    let end = column.saturating_sub(1).saturating_sub(dashes);
    if !is_word_char(grid.at(row, end)) {
        return Ok(None);
    }
    let first = word_start(grid, row, end);
    let text = Text::from_ascii(alloc, grid.cut(row, first, end + 1))?;
    Ok(Some(Operand {
        text,
        column: first,
    }))
}

fn right_operand(
    alloc: Global,
    grid: &Grid,
    row: usize,
    column: usize,
) -> Result<Option<Operand>, AllocError>
    requires { column < 2 ^ 61 }
    ensures { IfOk result (λ o. o ≡ right_operand grid.now row column) }
{
    let first = column + 1 + grid.dashes_after(row, column);
    if !is_word_char(grid.at(row, first)) {
        return Ok(None);
    }
    let end = word_end(grid, row, first);
    let text = Text::from_ascii(alloc, grid.cut(row, first, end))?;
    Ok(Some(Operand {
        text,
        column: first,
    }))
}

/// The operand of a pin of the side in a column.
fn operand_beside(
    alloc: Global,
    grid: &Grid,
    side: Side,
    row: usize,
    column: usize,
) -> Result<Option<Operand>, AllocError>
    requires { column < 2 ^ 61 }
    ensures { IfOk result (λ o. o ≡ operand_beside grid.now side row column) }
{
    match side {
        Side::Left => left_operand(alloc, grid, row, column),
        Side::Right => right_operand(alloc, grid, row, column),
    }
}

/// A pin of the side in a column, by its name.
fn side_pin(
    alloc: Global,
    grid: &Grid,
    side: Side,
    row: usize,
    column: usize,
    name: &[u8],
) -> Result<DrawnPin, AllocError>
    requires column { column < 2 ^ 61 }
    requires name { IsAscii name.now }
    ensures { IfOk result (λ p. p ≡ side_pin grid.now side row column name.now) }
{
    Ok(DrawnPin {
        row,
        side,
        name: Text::from_ascii(alloc, name)?,
        operand: operand_beside(alloc, grid, side, row, column)?,
    })
}

fn blanks_before(text: &[u8]) -> usize
    ensures { result ≡ blanks_before text.now }
{
    text.len().saturating_sub(without_leading(text).len())
}

fn blanks_behind(text: &[u8]) -> usize
    ensures { result ≡ blanks_behind text.now }
{
    text.len().saturating_sub(trimmed(text).len())
}

/// The pin of the only word of an inner row.
#[tactic(auto, unfolding(crate::specs::Boxes::nearer_pin))]
fn nearer_pin(
    alloc: Global,
    grid: &Grid,
    row: usize,
    left: usize,
    right: usize,
    name: &[u8],
) -> Result<DrawnPin, AllocError>
    requires left { left < 2 ^ 61 }
    requires right { right < 2 ^ 61 }
    requires name { IsAscii name.now }
    ensures { IfOk result (λ p. p ≡ nearer_pin grid.now row left right name.now) }
{
    let text = grid.cut(row, left + 1, right);
    if blanks_before(text) <= blanks_behind(text) {
        side_pin(alloc, grid, Side::Left, row, left, name)
    } else {
        side_pin(alloc, grid, Side::Right, row, right, name)
    }
}

#[tactic(auto, using(words::proofs::AsciiNames::identifier_ascii))]
fn pins_from(
    alloc: Global,
    grid: &Grid,
    row: usize,
    left: usize,
    right: usize,
    words: &[&[u8]],
) -> Result<Option<Pins>, AllocError>
    requires left { left < 2 ^ 61 }
    requires right { right < 2 ^ 61 }
    ensures { IfOk result (λ o. o ≡ pins_from grid.now row left right (map (λ w. w.now) words.now)) }
{
    let mut pins = Pins::new(alloc);
    match words {
        [] => Ok(Some(pins)),
        [name] => {
            if !is_identifier(name) {
                return Ok(None);
            }
            pins.push(nearer_pin(alloc, grid, row, left, right, name)?)?;
            Ok(Some(pins))
        }
        [first, second] => {
            if !(is_identifier(first) && is_identifier(second)) {
                return Ok(None);
            }
            pins.push(side_pin(alloc, grid, Side::Left, row, left, first)?)?;
            pins.push(side_pin(alloc, grid, Side::Right, row, right, second)?)?;
            Ok(Some(pins))
        }
        _ => Ok(None),
    }
}

fn row_pins(
    alloc: Global,
    grid: &Grid,
    left: usize,
    right: usize,
    row: usize,
) -> Result<Option<Pins>, AllocError>
    requires left { left < 2 ^ 61 }
    requires right { right < 2 ^ 61 }
    ensures { IfOk result (λ o. o ≡ row_pins grid.now left right row) }
{
    let words = blank_words(alloc, grid.cut(row, left + 1, right))?;
    pins_from(alloc, grid, row, left, right, &words)
}

/// The pins of some inner rows.
fn pins_of_rows(
    alloc: Global,
    grid: &Grid,
    left: usize,
    right: usize,
    from: usize,
    count: usize,
) -> Result<Option<Pins>, AllocError>
    requires left { left < 2 ^ 61 }
    requires right { right < 2 ^ 61 }
    requires from { from < 2 ^ 61 }
    requires count { count < 2 ^ 61 }
    ensures { IfOk result (λ o. o ≡ pins_of_rows grid.now left right from count) }
{
    let mut pins = Pins::new(alloc);
    for i in 0..count {
        match row_pins(alloc, grid, left, right, from + i)? {
            None => return Ok(None),
            Some(more) => pins.append(more)?,
        }
    }
    Ok(Some(pins))
}

/// The row of the bottom side of a box.
fn bottom_row(grid: &Grid, row: usize, column: usize) -> usize
    requires row { row < 2 ^ 61 }
    requires column { column < 2 ^ 61 }
    ensures bottom { result ≡ bottom_row grid.now row column }
    ensures near { result ≤ row + 2002 }
{
    let right = column + 1 + grid.dashes_after(row, column);
    let limit = grid.row_end().saturating_sub(1).saturating_sub(row);
    let mut n = 0;
    while n < limit && grid.has_sides(column, right, row + 1 + n) {
        n += 1;
    }
    row + 1 + n
}

fn is_edge(grid: &Grid, left: usize, right: usize, row: usize) -> bool
    requires { left < 2 ^ 61 }
    ensures { result ≡ is_edge grid.now left right row }
{
    grid.at(row, left) == b'+'
        && left + 1 + grid.dashes_after(row, left) == right
        && grid.at(row, right) == b'+'
}

/// The box that begins at a place, if it is as it should be.
#[tactic(auto, unfolding(crate::specs::Boxes::outline_at))]
fn outline_at(
    alloc: Global,
    grid: &Grid,
    row: usize,
    column: usize,
) -> Result<Option<Outline>, AllocError>
    requires row { row < 2 ^ 60 }
    requires column { column < 2 ^ 30 }
    ensures { IfOk result (λ o. o ≡ outline_at grid.now row column) }
{
    let right = column + 1 + grid.dashes_after(row, column);
    let bottom = bottom_row(grid, row, column);
    let count = bottom.saturating_sub(row + 2);
    let block = grid.block_in(row, column);
    let pins = pins_of_rows(alloc, grid, column, right, row + 2, count)?;
    match (block, pins) {
        (Some(block), Some(pins)) => {
            if !is_edge(grid, column, right, bottom) {
                return Ok(None);
            }
            Ok(Some(Outline {
                top: row,
                left: column,
                bottom,
                right: right as u32,
                block,
                pins,
            }))
        }
        _ => Ok(None),
    }
}

#[tactic(auto, unfolding(crate::specs::Boxes::box_at))]
fn box_at(
    alloc: Global,
    grid: &Grid,
    row: usize,
    column: usize,
) -> Result<Option<Outline>, AllocError>
    requires row { row < 2 ^ 60 }
    requires column { column < 2 ^ 30 }
    ensures { IfOk result (λ o. o ≡ box_at grid.now row column) }
{
    if !grid.begins_box(row, column) {
        return Ok(None);
    }
    outline_at(alloc, grid, row, column)
}

/// The box at a place with a character.
#[tactic(auto, using(crate::proofs::Outlines::Corners::no_box_at))]
fn box_with(
    alloc: Global,
    grid: &Grid,
    c: u8,
    row: usize,
    column: usize,
) -> Result<Option<Outline>, AllocError>
    requires row { row < 2 ^ 60 }
    requires column { column < 2 ^ 30 }
    requires char { c ≡ char_at grid.now row column }
    ensures { IfOk result (λ o. o ≡ box_at grid.now row column) }
{
    if c != b'+' {
        return Ok(None);
    }
    box_at(alloc, grid, row, column)
}

/// Whether a dash follows a `+` behind a column. Each place is looked at, so that many are at once.
fn has_corner(cells: &[u8], left: usize) -> bool
    ensures { OnFalse result (HasNoCorner left cells.now) }
{
    let mut found = false;
    for column in left.saturating_add(2)..cells.len() {
        found |= (cells[column - 1] == b'+') & (cells[column] == b'-');
    }
    found
}

/// Whether a box may begin in a row.
#[tactic(auto, using(crate::proofs::Outlines::Corners::begins_nowhere))]
fn may_begin_box(grid: &Grid, row: usize) -> bool
    ensures { OnFalse result ((c : ℕ) → begins_box grid.now row c ≡ false) }
{
    has_corner(grid.cells(row), grid.left())
}

#[tactic(auto, unfolding(crate::specs::Boxes::row_outlines))]
fn row_outlines(alloc: Global, grid: &Grid, row: usize) -> Result<Vec<Outline>, AllocError>
    requires { row < 2 ^ 60 }
    ensures { IfOk result (λ v. v.items ≡ row_outlines grid.now row) }
{
    let mut found = Vec::new(alloc);
    if !may_begin_box(grid, row) {
        return Ok(found);
    }
    let cells = grid.cells(row);
    for column in 0..grid.last() {
        let c = grid.cell(cells, row, column + 1);
        if let Some(outline) = box_with(alloc, grid, c, row, column + 1)? {
            found.push(outline)?;
        }
    }
    Ok(found)
}

/// The boxes, by row and then column.
#[tactic(auto, unfolding(crate::specs::Boxes::outlines))]
pub fn outlines(alloc: Global, grid: &Grid) -> Result<Vec<Outline>, AllocError>
    ensures { IfOk result (λ v. v.items ≡ outlines grid.now) }
{
    let mut all = Vec::new(alloc);
    for row in 0..grid.row_end().saturating_sub(1) {
        let mut more = row_outlines(alloc, grid, row + 1)?;
        all.append(&mut more)?;
    }
    Ok(all)
}

fn is_bad_box(alloc: Global, grid: &Grid, row: usize, column: usize) -> Result<bool, AllocError>
    requires row { row < 2 ^ 60 }
    requires column { column < 2 ^ 30 }
    ensures { IfOk result (λ b. b ≡ bad_box grid.now row column) }
{
    if !grid.begins_box(row, column) {
        return Ok(false);
    }
    let outline = outline_at(alloc, grid, row, column)?;
    Ok(outline.is_none())
}

/// Whether a box begins at a place with a character, and isn't as it should be.
#[tactic(auto, using(crate::proofs::Outlines::Corners::no_bad_box))]
fn is_bad_box_with(
    alloc: Global,
    grid: &Grid,
    c: u8,
    row: usize,
    column: usize,
) -> Result<bool, AllocError>
    requires row { row < 2 ^ 60 }
    requires column { column < 2 ^ 30 }
    requires char { c ≡ char_at grid.now row column }
    ensures { IfOk result (λ b. b ≡ bad_box grid.now row column) }
{
    if c != b'+' {
        return Ok(false);
    }
    is_bad_box(alloc, grid, row, column)
}

#[tactic(auto, using(crate::proofs::Outlines::Corners::no_bad_one))]
fn bad_box_in_row(alloc: Global, grid: &Grid, row: usize) -> Result<Option<usize>, AllocError>
    requires { row < 2 ^ 60 }
    ensures none { IfOk result (λ found. IfNone found (NowhereInRow grid.now (bad_box grid.now row))) }
    ensures inside { IfOk result (λ found. IfSome found (λ c. c ≤ width grid.now)) }
    ensures some { IfOk result (λ found. IfSome found (λ c. IsTrue (bad_box grid.now row c))) }
    ensures before { IfOk result (λ found. IfSome found (λ c. (k : ℕ) → k < c → IsFalse (bad_box grid.now row k))) }
{
    if !may_begin_box(grid, row) {
        return Ok(None);
    }
    let cells = grid.cells(row);
    for column in 0..grid.last() + 1 {
        let c = grid.cell(cells, row, column);
        if is_bad_box_with(alloc, grid, c, row, column)? {
            return Ok(Some(column));
        }
    }
    Ok(None)
}

/// The first place at which a box begins that isn't as it should be.
#[tactic(auto, using(crate::proofs::Rows::FirstPlaces::found_first))]
pub fn first_bad_box(alloc: Global, grid: &Grid) -> Result<Option<Place>, AllocError>
    ensures none { IfOk result (λ found. IfNone found (NowhereInRows grid.now (bad_box grid.now))) }
    ensures some { IfOk result (λ found. IfSome found (λ p. PassesAt grid.now (bad_box grid.now) p)) }
    ensures first { IfOk result (λ found. IfSome found (λ p. IsFirstToPass grid.now (bad_box grid.now) p)) }
{
    for row in 0..grid.row_end() {
        if let Some(column) = bad_box_in_row(alloc, grid, row)? {
            return Ok(Some(Place { row, column }));
        }
    }
    Ok(None)
}
