//! A drawing.

ghost use Rattle.std.specs.Prelude.{◌≡◌};
ghost use Rattle.drawings.specs.Picture.{IsSound, mark_at, picture};

use crate::coil::Coil;
use crate::contact::Contact;
use crate::drawn_box::DrawnBox;
use crate::mark::Mark;
use crate::mark_row::MarkRow;
use std::marker::Model;

/// A drawing of ladders: what stands at each place, and its contacts, coils and boxes.
#[derive(Drop)]
pub struct Drawing {
    first_line: u64,
    rows: usize,
    columns: usize,
    left: usize,
    marks: Vec<MarkRow>,
    contacts: Vec<Contact>,
    coils: Vec<Coil>,
    boxes: Vec<DrawnBox>,
}

impl Model for Drawing {
    ghost use Rattle.drawings.specs.Picture.{Picture, IsSound, picture};

    ghost Value = { Picture };

    ghost view = { λ d. picture d.first_line d.rows d.columns d.left
        d.marks.items d.contacts.items d.coils.items d.boxes.items };

    ghost invariant = { λ d. IsSound (picture d.first_line d.rows d.columns d.left
        d.marks.items d.contacts.items d.coils.items d.boxes.items) };
}

impl Drawing {
    /// A drawing of its parts: the number of its first line, how many rows and columns it has, the column of its left rail,
    /// the marks of each row behind a blank margin, and its contacts, coils and boxes, by row and then column.
    pub fn of(
        first_line: u64,
        rows: usize,
        columns: usize,
        left: usize,
        marks: Vec<MarkRow>,
        contacts: Vec<Contact>,
        coils: Vec<Coil>,
        boxes: Vec<DrawnBox>,
    ) -> Drawing
        requires { IsSound (picture first_line rows columns left marks.items contacts.items coils.items boxes.items) }
        ensures { result ≡ picture first_line rows columns left marks.items contacts.items coils.items boxes.items }
    {
        Drawing {
            first_line,
            rows,
            columns,
            left,
            marks,
            contacts,
            coils,
            boxes,
        }
    }

    /// The number of the drawing's first line.
    pub fn first_line(&self) -> u64
        ensures { result ≡ self.now.first_line }
    {
        self.first_line
    }

    /// The number of rows, at most 2,000.
    pub fn rows(&self) -> usize
        ensures rows { result ≡ self.now.rows }
        ensures sound { IsSound self.now }
    {
        self.rows
    }

    /// The number of columns, at most 240.
    pub fn columns(&self) -> usize
        ensures { result ≡ self.now.columns }
    {
        self.columns
    }

    /// The column of the left rail.
    pub fn left(&self) -> usize
        ensures { result ≡ self.now.left }
    {
        self.left
    }

    /// What stands at a place, rows and columns counted from 1; Blank outside the drawing.
    #[tactic(auto, unfolding(crate::specs::Picture::mark_at))]
    pub fn mark(&self, row: usize, column: usize) -> Mark
        ensures { result ≡ mark_at self.now row column }
    {
        if row == 0 {
            return Mark::Blank;
        }
        match self.marks.get(row - 1) {
            Some(marks) => marks.at(column),
            None => Mark::Blank,
        }
    }

    /// The contacts, by row and then column.
    pub fn contacts(&self) -> &[Contact]
        ensures { result.now ≡ self.now.contacts }
    {
        &self.contacts
    }

    /// The coils, by row and then column.
    pub fn coils(&self) -> &[Coil]
        ensures { result.now ≡ self.now.coils }
    {
        &self.coils
    }

    /// The boxes, by row and then column.
    pub fn boxes(&self) -> &[DrawnBox]
        ensures { result.now ≡ self.now.boxes }
    {
        &self.boxes
    }
}
