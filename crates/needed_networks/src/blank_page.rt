//! The text of a drawing with all blank but what is kept.

use drawings::{DrawnBox, DrawnPin, Side};
use network::Element;
use std::alloc::{AllocError, Global};

/// The most columns of a drawing.
const MOST_COLUMNS: usize = 240;

/// A text, where its rows begin, and the same text with only what is kept.
#[derive(Drop)]
pub(crate) struct BlankPage {
    text: Vec<u8>,
    starts: Vec<usize>,
    kept: Vec<u8>,
}

fn is_in_word(letter: u8) -> bool {
    letter.is_ascii_alphanumeric() || letter == b'_' || letter == b'.' || letter == b'#'
}

/// Where the rows of a text begin.
fn starts_of(alloc: Global, text: &[u8]) -> Result<Vec<usize>, AllocError> {
    let mut starts = vec![in alloc; 0]?;
    for (at, letter) in text.iter().enumerate() {
        if *letter == b'\n' {
            starts.push(at + 1)?;
        }
    }
    Ok(starts)
}

/// A text of as many rows, all blank.
fn blank(alloc: Global, text: &[u8]) -> Result<Vec<u8>, AllocError> {
    let mut kept = Vec::new(alloc);
    for letter in text {
        kept.push(if *letter == b'\n' { b'\n' } else { b' ' })?;
    }
    Ok(kept)
}

impl BlankPage {
    /// A text of which nothing is kept.
    pub(crate) fn new(alloc: Global, text: &str) -> Result<Self, AllocError> {
        Ok(BlankPage {
            text: Vec::from_slice(alloc, text.as_bytes())?,
            starts: starts_of(alloc, text.as_bytes())?,
            kept: blank(alloc, text.as_bytes())?,
        })
    }

    /// What is kept, in its place.
    pub(crate) fn kept(&self) -> &[u8] {
        &self.kept
    }

    /// Where a place stands in the text, rows and columns counted from 1.
    fn index(&self, row: usize, column: usize) -> Option<usize> {
        let start = *self.starts.get(row.checked_sub(1)?)?;
        let end = self.starts.get(row).copied().unwrap_or(self.text.len());
        let at = start.checked_add(column.checked_sub(1)?)?;
        if at < end { Some(at) } else { None }
    }

    fn letter(&self, row: usize, column: usize) -> Option<u8> {
        self.text.get(self.index(row, column)?).copied()
    }

    fn keep_at(&mut self, at: usize) {
        if at < self.text.len() && at < self.kept.len() {
            self.kept[at] = self.text[at];
        }
    }

    /// Keeps what stands at a place.
    pub(crate) fn keep(&mut self, row: usize, column: usize) {
        if let Some(at) = self.index(row, column) {
            self.keep_at(at);
        }
    }

    /// Keeps a row from one column to another.
    fn keep_from_to(&mut self, row: usize, first: usize, last: usize) {
        for column in first..last.saturating_add(1) {
            self.keep(row, column);
        }
    }

    fn is_word_at(&self, at: usize) -> bool {
        self.text.get(at).is_some_and(|letter| is_in_word(*letter))
    }

    fn keep_before(&mut self, at: usize) {
        for before in (0..at).rev() {
            if !self.is_word_at(before) {
                return;
            }
            self.keep_at(before);
        }
    }

    fn keep_behind(&mut self, at: usize) {
        for behind in at..self.text.len() {
            if !self.is_word_at(behind) {
                return;
            }
            self.keep_at(behind);
        }
    }

    /// Keeps the words in the row above that stand over one of these columns.
    fn keep_names(&mut self, row: usize, first: usize, last: usize) {
        for column in first..last.saturating_add(1) {
            if let Some(at) = self.index(row.saturating_sub(1), column) {
                if self.is_word_at(at) {
                    self.keep_before(at);
                    self.keep_behind(at);
                }
            }
        }
    }

    /// Keeps what stands at these places and the names above.
    fn keep_named(&mut self, row: usize, first: usize, last: usize) {
        self.keep_from_to(row, first, last);
        self.keep_names(row, first, last);
    }

    fn keep_symbol(&mut self, row: usize, column: usize) {
        self.keep_named(row, column, column.saturating_add(2));
    }

    fn keep_pin(&mut self, drawn: &DrawnBox, pin: &DrawnPin) {
        match (pin.side, &pin.operand) {
            (_, None) => {}
            (Side::Left, Some(operand)) => self.keep_from_to(pin.row, operand.column, drawn.left),
            (Side::Right, Some(operand)) => {
                let last = operand.column.saturating_add(operand.text.as_str().len());
                self.keep_from_to(pin.row, drawn.right, last.saturating_sub(1));
            }
        }
    }

    fn keep_box(&mut self, drawn: &DrawnBox) {
        self.keep_names(drawn.top, drawn.left, drawn.right);
        for row in drawn.top..drawn.bottom.saturating_add(1) {
            self.keep_from_to(row, drawn.left, drawn.right);
        }
        for pin in drawn.pins.as_slice() {
            self.keep_pin(drawn, pin);
        }
    }

    /// Keeps an element, with its names and operands.
    fn keep_element(&mut self, element: &Element) {
        match element {
            Element::Wire(at) | Element::Join(at) | Element::Upright(at) => self.keep(
                at.row, at.column,
            ),
            Element::Contact(contact) => self.keep_symbol(contact.row, contact.column),
            Element::Coil(coil) => self.keep_symbol(coil.row, coil.column),
            Element::Box(boxed) => self.keep_box(boxed.drawn()),
        }
    }

    /// Keeps elements, with their names and operands.
    pub(crate) fn keep_elements(&mut self, elements: &[Element]) {
        for element in elements {
            self.keep_element(element);
        }
    }

    /// The last column of a row at which something is drawn; 0 in a blank row.
    fn row_end(&self, row: usize) -> usize {
        let mut end = 0;
        for column in 1..MOST_COLUMNS + 1 {
            let is_drawn = self
                .letter(row, column)
                .is_some_and(|letter| letter.is_ascii_graphic());
            if is_drawn {
                end = column;
            }
        }
        end
    }

    /// The last column at which something is drawn.
    fn last_column(&self) -> usize {
        let mut last = 0;
        for row in 0..self.starts.len() {
            last = last.max(self.row_end(row + 1));
        }
        last
    }

    /// Whether nothing but a rail can stand in a column.
    fn may_be_rail(&self, column: usize) -> bool {
        for row in 0..self.starts.len() {
            let letter = self.letter(row + 1, column).unwrap_or(b' ');
            if letter.is_ascii_graphic() && letter != b'|' && letter != b'+' {
                return false;
            }
        }
        true
    }

    /// Keeps the last column, if it can be the right rail.
    pub(crate) fn keep_right_rail(&mut self) {
        let last = self.last_column();
        if self.may_be_rail(last) {
            for row in 0..self.starts.len() {
                self.keep(row + 1, last);
            }
        }
    }
}
