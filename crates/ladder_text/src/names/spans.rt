//! The words and the symbols of a row.

ghost use Rattle.std.specs.Prelude.{[], ◌≡◌, ◌+◌, ◌-◌, ◌<◌, ◌≤◌, ◌^◌, ℕ, false, IfOk, IsTrue, slice_index_or};
ghost use Rattle.std.specs.Bool.{OnFalse};
ghost use Rattle.words.specs.Chars.{is_word_char};
ghost use Rattle.ladder_rows.specs.Rows.{char_at, width, run};
ghost use Rattle.ladder_rows.specs.Boxes.{outlines};
ghost use Rattle.ladder_text.specs.Places.{layout_of, mark as place_mark};
ghost use Rattle.ladder_rows.specs.Steps.RowBoxes.{IsBare};
ghost use Rattle.ladder_text.specs.Steps.RowMarks.{AreMarksOf};
ghost use Rattle.ladder_text.specs.Steps.RowSpans.{HasNoSymbol};
ghost use Rattle.ladder_text.specs.Names.{in_word, words, symbol_at, symbols};

use crate::names::span::symbol_span;
use crate::places::mark_tests::is_symbol;
use crate::places::marked_grid::MarkedGrid;
use drawings::{Mark, MarkRow};
use ladder_rows::{Span, runs_end};
use std::alloc::{AllocError, Global};
use words::is_word_char;

/// Whether a place with a character is one of a word; of a row that is bare it is known.
#[inline(always)]
#[tactic(auto, unfolding(crate::specs::Places::layout_of, crate::specs::Names::in_word))]
fn in_word_with(marked: &MarkedGrid, bare: bool, c: u8, row: usize, column: usize) -> bool
    requires column { column < 2 ^ 62 }
    requires bare { IsTrue bare → IsBare (outlines marked.now) row }
    requires char { c ≡ char_at marked.now row column }
    ensures { result ≡ in_word (layout_of marked.now) row column }
{
    !matches!(c, b' ' | b'-' | b'|')
        && is_word_char(c)
        && !marked.is_taken(row, column)
        && !marked.in_operand_of(bare, row, column)
}

/// Whether a word goes on at a place with a character; in a row that is bare each character of a word does so.
#[inline(always)]
#[tactic(auto, unfolding(crate::specs::Places::layout_of))]
fn goes_on_with(marked: &MarkedGrid, bare: bool, c: u8, row: usize, column: usize) -> bool
    requires column { column < 2 ^ 62 }
    requires bare { IsTrue bare → IsBare (outlines marked.now) row }
    requires char { c ≡ char_at marked.now row column }
    requires before { IsTrue (in_word (layout_of marked.now) row (column - 1)) }
    ensures { result ≡ in_word (layout_of marked.now) row column }
{
    if bare {
        return is_word_char(c);
    }
    in_word_with(marked, bare, c, row, column)
}

/// How many places of a word follow one in a column of a row whose characters are at hand.
fn word_rest(marked: &MarkedGrid, bare: bool, cells: &[u8], row: usize, column: usize) -> usize
    requires bare { IsTrue bare → IsBare (outlines marked.now) row }
    requires cells { cells.now ≡ slice_index_or marked.now row [] }
    requires column { column < 2 ^ 61 }
    requires inside { IsTrue (in_word (layout_of marked.now) row column) }
    ensures rest { result ≡ run (in_word (layout_of marked.now) row) (column + 1) (width marked.now) }
    ensures within { column ≤ width marked.now → column + result ≤ width marked.now }
{
    runs_end();
    let grid = marked.grid();
    let limit = grid.last();
    let mut n = 0;
    while n < limit
        && goes_on_with(
            marked,
            bare,
            grid.cell(cells, row, column + 1 + n),
            row,
            column + 1 + n,
        )
    {
        n += 1;
    }
    n
}

/// Whether a character of a word may stand in a row. Each place is looked at, so that many are at once.
#[tactic(auto, using(crate::proofs::Words::BareRows::no_word_char))]
fn may_have_words(cells: &[u8]) -> bool
    ensures { OnFalse result ((c : ℕ) → is_word_char (slice_index_or cells.now c 32) ≡ false) }
{
    let mut found = false;
    for c in cells {
        found |= ((b'0' <= *c) & (*c != b'|')) | (*c == b'.') | (*c == b'#');
    }
    found
}

/// The words of a row. Behind one it goes on at its last place.
#[tactic(auto, unfolding(crate::specs::Places::layout_of, crate::specs::Names::word_at))]
pub fn words(alloc: Global, marked: &MarkedGrid, row: usize) -> Result<Vec<Span>, AllocError>
    ensures { IfOk result (λ v. v.items ≡ words (layout_of marked.now) row) }
{
    let mut words = Vec::new(alloc);
    let grid = marked.grid();
    let cells = grid.cells(row);
    if !may_have_words(cells) {
        return Ok(words);
    }
    let last = grid.last();
    let bare = marked.is_bare(row);
    let mut inside = in_word_with(marked, bare, grid.cell(cells, row, 0), row, 0);
    let mut column = 0;
    while column < last {
        let before = inside;
        column += 1;
        let c = grid.cell(cells, row, column);
        inside = in_word_with(marked, bare, c, row, column);
        if inside && !before {
            let rest = word_rest(marked, bare, cells, row, column);
            words.push(Span {
                first: column,
                end: column + 1 + rest,
            })?;
            column += rest;
        }
    }
    Ok(words)
}

/// The columns of the symbol that begins at a place with a mark.
#[tactic(auto, unfolding(crate::specs::Places::layout_of, crate::specs::Names::symbol_at))]
fn symbol_with(marked: &MarkedGrid, mark: Mark, row: usize, column: usize) -> Option<Span>
    requires column { column < 2 ^ 61 }
    requires mark { mark ≡ place_mark (layout_of marked.now) row column }
    ensures { result ≡ symbol_at (layout_of marked.now) row column }
{
    if marked.begins_symbol(mark, row, column) {
        Some(symbol_span(column))
    } else {
        None
    }
}

/// The symbols of a row, each place's mark looked up by itself.
fn symbols_by_place(alloc: Global, marked: &MarkedGrid, row: usize) -> Result<Vec<Span>, AllocError>
    ensures { IfOk result (λ v. v.items ≡ symbols (layout_of marked.now) row) }
{
    let mut symbols = Vec::new(alloc);
    for column in 0..marked.grid().last() {
        let mark = marked.mark(row, column + 1);
        if let Some(symbol) = symbol_with(marked, mark, row, column + 1) {
            symbols.push(symbol)?;
        }
    }
    Ok(symbols)
}

/// Whether a symbol may begin in a row. Each place is looked at, so that many are at once.
fn may_have_symbols(cells: &[u8]) -> bool
    ensures { OnFalse result (HasNoSymbol cells.now) }
{
    let mut found = false;
    for column in 1..cells.len() {
        let before = cells[column - 1];
        let c = cells[column];
        found |= ((c == b'|') & ((before == b'-') | (before == b'+'))) | (c == b'(');
    }
    found
}

/// The symbols of a row whose marks are at hand. None begins in another one, so the first place of a symbol is where its mark comes first.
fn symbols_in(
    alloc: Global,
    marked: &MarkedGrid,
    marks: &MarkRow,
    row: usize,
) -> Result<Vec<Span>, AllocError>
    requires { AreMarksOf (layout_of marked.now) row marks.now }
    ensures { IfOk result (λ v. v.items ≡ symbols (layout_of marked.now) row) }
{
    let mut symbols = Vec::new(alloc);
    let grid = marked.grid();
    if !may_have_symbols(grid.cells(row)) {
        return Ok(symbols);
    }
    if marked.contact_at(row, 0).is_some() || marked.coil_at(row, 0).is_some() {
        return symbols_by_place(alloc, marked, row);
    }
    let last = grid.last();
    let mut column = 0;
    while column < last {
        if is_symbol(marked.mark_in(marks, row, column + 1)) {
            symbols.push(symbol_span(column + 1))?;
            column += 3;
        } else {
            column += 1;
        }
    }
    Ok(symbols)
}

/// The three columns of each symbol of a row.
pub fn symbols(alloc: Global, marked: &MarkedGrid, row: usize) -> Result<Vec<Span>, AllocError>
    ensures { IfOk result (λ v. v.items ≡ symbols (layout_of marked.now) row) }
{
    match marked.marks_on(row) {
        Some(marks) => symbols_in(alloc, marked, marks, row),
        None => symbols_by_place(alloc, marked, row),
    }
}
