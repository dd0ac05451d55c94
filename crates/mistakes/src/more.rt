//! What is told behind the sentence on the kind of a fault.

use crate::further::{drawing_around, further_faults, push_faults, row_of};
use crate::plant_place::told_of_place;
use guidance::marked_column;
use ladder_text::{DrawFault, DrawFaultKind};
use name_faults::{BindFault, BindKind};
use plant::{BodyFault, PlantFault};
use slips::{
    Broken, Part, broken_at, broken_in, rail_of, row_at, rows_of, rung_of, told_of_block,
    told_of_comment, told_of_comments, told_of_form, told_of_forms, told_of_pins, told_of_pins_in,
};
use std::alloc::{AllocError, Global};
use text_commands::{TextFault, without_comments};

/// A text that is refused, its comments emptied, and the rows of the drawing in which its fault stands.
#[derive(Clone, Copy)]
struct Refused<'a> {
    text: &'a str,
    rows: &'a [&'a str],
    part: Part,
}

/// The row that breaks a box, with a mark, and what is wrong there.
fn told_of_break(
    alloc: Global,
    text: &str,
    broken: Option<Broken>,
) -> Result<Option<String>, AllocError> {
    let Some(broken) = broken else {
        return Ok(None);
    };
    let line = (broken.row as u64).saturating_add(1);
    let column = broken.column.saturating_add(1);
    let mut told = format!(in alloc; "Line {line}, column {column}:\n")?;
    told.push_str(marked_column(alloc, text, line, column)?.as_str())?;
    told.push_str(broken.kind.text())?;
    told.push_str("\n")?;
    Ok(Some(told))
}

impl<'a> Refused<'a> {
    /// What is told of a box in the rung of a row whose first word is no block type.
    fn block(self, alloc: Global, row: usize) -> Result<Option<String>, AllocError> {
        let rail = rail_of(self.rows, self.part);
        let rung = rung_of(self.rows, self.part, row, rail);
        told_of_block(alloc, self.rows, rung)
    }

    /// What is told of a place that is ill drawn.
    fn draw(self, alloc: Global, fault: DrawFault) -> Result<Option<String>, AllocError> {
        let row = row_of(fault.line);
        let column = fault.column.saturating_sub(1);
        let text = row_at(self.rows, row);
        if fault.kind == DrawFaultKind::BadBox {
            return told_of_break(alloc, self.text, broken_at(self.rows, row, column));
        }
        if let Some(told) = told_of_comment(alloc, text, column)? {
            return Ok(Some(told));
        }
        if let Some(told) = told_of_form(alloc, text, column)? {
            return Ok(Some(told));
        }
        self.block(alloc, row)
    }

    /// What is told of a row of a body that is ill drawn.
    fn draw_in(
        self,
        alloc: Global,
        row: usize,
        kind: DrawFaultKind,
    ) -> Result<Option<String>, AllocError> {
        let text = row_at(self.rows, row);
        if kind == DrawFaultKind::BadBox {
            return told_of_break(alloc, self.text, broken_in(self.rows, row));
        }
        if let Some(told) = told_of_comments(alloc, text)? {
            return Ok(Some(told));
        }
        if let Some(told) = told_of_forms(alloc, text, false)? {
            return Ok(Some(told));
        }
        self.block(alloc, row)
    }

    /// What is told of a place whose name is refused.
    fn bind(self, alloc: Global, fault: BindFault) -> Result<Option<String>, AllocError> {
        let row = row_of(fault.line);
        if fault.kind == BindKind::UnknownPin {
            let column = fault.column.saturating_sub(1);
            return told_of_pins(alloc, self.rows, self.part, row, column);
        }
        Ok(None)
    }

    /// What is told of a plant's fault.
    fn plant(self, alloc: Global, fault: PlantFault) -> Result<Option<String>, AllocError> {
        let row = row_of(fault.line);
        match fault.inner {
            Some(BodyFault::Drawing(kind)) => self.draw_in(alloc, row, kind),
            Some(BodyFault::Graph(_)) => self.block(alloc, row),
            Some(BodyFault::Bind(BindKind::UnknownPin)) => {
                told_of_pins_in(alloc, self.rows, self.part, row)
            }
            Some(BodyFault::Bind(_)) => Ok(None),
            None => self.word(alloc, fault),
        }
    }

    /// What is told of a word of a plant that is refused.
    fn word(self, alloc: Global, fault: PlantFault) -> Result<Option<String>, AllocError> {
        let mut told = String::new(alloc);
        if let Some(form) = told_of_forms(alloc, row_at(self.rows, row_of(fault.line)), true)? {
            told.push_str(form.as_str())?;
        }
        if let Some(place) = told_of_place(alloc, self.text, fault)? {
            told.push_str(place.as_str())?;
        }
        Ok(Some(told))
    }
}

/// What is told of the place of a fault.
fn told_of(alloc: Global, text: &str, fault: TextFault) -> Result<Option<String>, AllocError> {
    let rows = rows_of(alloc, text)?;
    let part = drawing_around(alloc, text, &rows, fault)?;
    let refused = Refused {
        text,
        rows: rows.as_slice(),
        part,
    };
    match fault {
        TextFault::Draw(fault) => refused.draw(alloc, fault),
        TextFault::Graph(fault) => refused.block(alloc, row_of(fault.line)),
        TextFault::Bind(fault) => refused.bind(alloc, fault),
        TextFault::Plant(fault) => refused.plant(alloc, fault),
        TextFault::TooLong | TextFault::Second(_) => Ok(None),
    }
}

/// Whether a text begins as a plant does.
fn begins_as_plant(text: &str) -> bool {
    let words = text.trim_start().as_bytes();
    let word = words
        .split(|sign| !sign.is_ascii_alphabetic())
        .next()
        .unwrap_or(words);
    word.eq_ignore_ascii_case(b"PROGRAM") || word.eq_ignore_ascii_case(b"CONFIGURATION")
}

/// What else helps to mend a text that a command refused, behind what [`guidance::help_with`] tells: of a box whose first
/// word is no block type, of a word that is written wrong, of the row that breaks a box, of a type's pins, of the column of
/// a plant's word and what could stand there, of a comment that is none; then up to nine more faults, each with its place
/// and kind. It is empty where there is nothing to tell, and where
/// a plant is read as a drawing.
pub fn more_with(alloc: Global, text: &str, fault: TextFault) -> Result<String, AllocError> {
    let plain = without_comments(alloc, text)?;
    let mut more = String::new(alloc);
    if !matches!(fault, TextFault::Plant(_)) && begins_as_plant(plain.as_str()) {
        return Ok(more);
    }
    if let Some(told) = told_of(alloc, plain.as_str(), fault)? {
        more.push_str(told.as_str())?;
    }
    let faults = further_faults(alloc, text, fault)?;
    push_faults(&mut more, &faults)?;
    Ok(more)
}
