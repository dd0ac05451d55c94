//! The words and the symbols of each row, found once.

ghost use Rattle.std.specs.Prelude.{◌≡◌, IfOk, length};
ghost use Rattle.ladder_text.specs.Places.{layout_of};
ghost use Rattle.ladder_text.specs.Names.{words, symbols};
ghost use Rattle.ladder_text.specs.Steps.RowSpans.{AreOfRows};

use crate::names::span_row::SpanRow;
use crate::names::spans::{symbols, words};
use crate::places::marked_grid::MarkedGrid;
use ladder_rows::Span;
use std::alloc::{AllocError, Global};
use std::marker::Model;

/// A grid with its boxes and marks, and the words and the symbols of its rows.
#[derive(Drop)]
pub struct WordedGrid {
    marked: MarkedGrid,
    words: Vec<SpanRow>,
    symbols: Vec<SpanRow>,
}

impl Model for WordedGrid {
    ghost use Rattle.ladder_rows.specs.Rows.{Rows};
    ghost use Rattle.ladder_text.specs.Steps.RowSpans.{AreWordsAndSymbols};

    ghost Value = { Rows };

    ghost view = { λ p. p.marked };

    ghost invariant = { λ p. AreWordsAndSymbols p.marked p.words.items p.symbols.items };
}

/// The words row by row.
fn words_by_row(alloc: Global, marked: &MarkedGrid) -> Result<Vec<SpanRow>, AllocError>
    ensures { IfOk result (λ v. AreOfRows (words (layout_of marked.now)) (length marked.now) v.items) }
{
    let mut all = Vec::new(alloc);
    for row in 0..marked.grid().row_end() {
        all.push(SpanRow::new(words(alloc, marked, row)?))?;
    }
    Ok(all)
}

/// The symbols row by row.
fn symbols_by_row(alloc: Global, marked: &MarkedGrid) -> Result<Vec<SpanRow>, AllocError>
    ensures { IfOk result (λ v. AreOfRows (symbols (layout_of marked.now)) (length marked.now) v.items) }
{
    let mut all = Vec::new(alloc);
    for row in 0..marked.grid().row_end() {
        all.push(SpanRow::new(symbols(alloc, marked, row)?))?;
    }
    Ok(all)
}

impl WordedGrid {
    pub fn new(alloc: Global, marked: MarkedGrid) -> Result<WordedGrid, AllocError>
        ensures { IfOk result (λ p. p ≡ marked) }
    {
        let words = words_by_row(alloc, &marked)?;
        let symbols = symbols_by_row(alloc, &marked)?;
        Ok(WordedGrid {
            marked,
            words,
            symbols,
        })
    }

    /// The grid without its words and symbols.
    pub fn into_marked(self) -> MarkedGrid
        ensures { result ≡ self }
    {
        let WordedGrid {
            marked,
            words: _,
            symbols: _,
        } = self;
        marked
    }

    pub fn marked(&self) -> &MarkedGrid
        ensures { result.now ≡ self.now }
    {
        &self.marked
    }

    /// The words of a row.
    #[tactic(auto, unfolding(crate::specs::Places::layout_of), using(crate::proofs::Words::SpanRows::words_below))]
    pub fn words(&self, row: usize) -> &[Span]
        ensures { result.now ≡ words (layout_of self.now) row }
    {
        let rows = &self.words;
        match rows.get(row) {
            Some(words) => words.as_slice(),
            None => &[],
        }
    }

    /// The three columns of each symbol of a row.
    #[tactic(auto, unfolding(crate::specs::Places::layout_of), using(crate::proofs::Words::SpanRows::symbols_below))]
    pub fn symbols(&self, row: usize) -> &[Span]
        ensures { result.now ≡ symbols (layout_of self.now) row }
    {
        let rows = &self.symbols;
        match rows.get(row) {
            Some(symbols) => symbols.as_slice(),
            None => &[],
        }
    }
}
