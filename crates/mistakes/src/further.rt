//! The faults behind the first.

ghost use Rattle.std.specs.Prelude.{◌≤◌, ◌+◌, All, OnOk, IfOk, IfSome, length, string_bytes};
ghost use Rattle.text_commands.specs.CheckText.{RefusesPlantText};
ghost use Rattle.text_commands.specs.EvalText.{RefusesDrawing};
ghost use Rattle.mistakes.specs.Further.{IsEmptiedFrom, IsFurther, IsFurtherIn, IsLeftOf, Refuses};

use crate::emptied::without_rows;
use name_faults::BindKind;
use plant_text::{Token, read_words};
use slips::{Part, before_a_dot, rail_of, row_at, rows_of, rung_of};
use std::alloc::{AllocError, Global};
use std::fmt::Write;
use text_commands::{TextCommandFault, TextFault, read_ladder, read_plant, without_comments};
use words::is_word_char;

/// How many faults are told behind the first, at most.
const MOST: usize = 9;

/// The row of a line, counted from 0.
pub fn row_of(line: u64) -> usize {
    line.saturating_sub(1) as usize
}

/// The row of a fault of a drawing, or of a program's body. `None`: it is that of a plant's word or plan.
fn drawn_row(fault: TextFault) -> Option<usize> {
    match fault {
        TextFault::Draw(fault) => Some(row_of(fault.line)),
        TextFault::Graph(fault) => Some(row_of(fault.line)),
        TextFault::Bind(fault) => Some(row_of(fault.line)),
        TextFault::Plant(fault) if fault.inner.is_some() => Some(row_of(fault.line)),
        TextFault::Plant(_) | TextFault::TooLong | TextFault::Second(_) => None,
    }
}

/// The rows of the program's body in which a row stands; none of them, where it stands in no body.
fn body_around(alloc: Global, text: &str, row: usize) -> Result<Part, AllocError> {
    let words = read_words(alloc, text)?;
    let mut part = Part { first: 0, end: 0 };
    for word in words.words() {
        if let Token::Body(body) = word.token() {
            let first = row_of(word.line());
            let end = first.saturating_add(body.as_str().lines().count());
            if first <= row && row < end {
                part = Part { first, end };
            }
        }
    }
    Ok(part)
}

/// The rows of the drawing in which a fault stands.
pub fn drawing_around(
    alloc: Global,
    text: &str,
    rows: &[&str],
    fault: TextFault,
) -> Result<Part, AllocError> {
    match (fault, drawn_row(fault)) {
        (TextFault::Plant(_), Some(row)) => body_around(alloc, text, row),
        (TextFault::Plant(_), None) => Ok(Part { first: 0, end: 0 }),
        _ => Ok(Part {
            first: 0,
            end: rows.len(),
        }),
    }
}

/// Whether more than a rail is drawn in a row.
fn is_worth(row: &str) -> bool {
    let drawn = row.trim();
    !drawn.is_empty() && drawn != "|"
}

/// Rows of a drawing that are to be emptied, and the column of its rail.
#[derive(Clone, Copy)]
struct Rung {
    rows: Part,
    rail: usize,
}

/// The rung in which a fault stands. `None`: nothing is drawn there, or in no drawing.
fn rung_around(alloc: Global, text: &str, fault: TextFault) -> Result<Option<Rung>, AllocError> {
    let Some(row) = drawn_row(fault) else {
        return Ok(None);
    };
    let rows = rows_of(alloc, text)?;
    let part = drawing_around(alloc, text, &rows, fault)?;
    if !is_worth(row_at(&rows, row)) || row < part.first || part.end <= row {
        return Ok(None);
    }
    let rail = rail_of(&rows, part);
    Ok(Some(Rung {
        rows: rung_of(&rows, part, row, rail),
        rail,
    }))
}

/// The text, its rung emptied.
fn without_rung(alloc: Global, text: &str, rung: Rung) -> Result<String, AllocError>
    ensures { IfOk result (λ rest. IsEmptiedFrom text.now (string_bytes rest)) }
{
    let rows = rows_of(alloc, text)?;
    let count = rung.rows.end.saturating_sub(rung.rows.first);
    without_rows(alloc, &rows, rung.rows.first, count, rung.rail)
}

/// What is left of a text without the rung in which a fault stands. `None`: there is none.
fn rest_of(alloc: Global, text: &str, fault: TextFault) -> Result<Option<String>, AllocError>
    ensures { IfOk result (λ left. IfSome left (λ rest. IsEmptiedFrom text.now (string_bytes rest))) }
{
    match rung_around(alloc, text, fault)? {
        Some(rung) => Ok(Some(without_rung(alloc, text, rung)?)),
        None => Ok(None),
    }
}

/// The first fault of a drawing. `None`: it has none, or there is no memory left.
fn fault_of_drawing(alloc: Global, text: &str) -> Option<TextFault>
    ensures { IfSome result (RefusesDrawing text.now) }
{
    match read_ladder(alloc, text) {
        Err(TextCommandFault::Text(fault)) => Some(fault),
        _ => None,
    }
}

/// The first fault of a plant. `None`: it has none, or there is no memory left.
fn fault_of_plant(alloc: Global, text: &str) -> Option<TextFault>
    ensures { IfSome result (RefusesPlantText text.now) }
{
    match read_plant(alloc, text) {
        Err(TextCommandFault::Text(fault)) => Some(fault),
        _ => None,
    }
}

/// The first fault of a text, which is that of a plant or of a drawing. `None`: it has none, or there is no memory left.
fn first_fault(alloc: Global, text: &str, is_plant: bool) -> Option<TextFault>
    ensures { IfSome result (Refuses text.now) }
{
    if is_plant {
        fault_of_plant(alloc, text)
    } else {
        fault_of_drawing(alloc, text)
    }
}

/// Whether a fault stands where something is drawn, or is a plant's own.
fn stands(alloc: Global, text: &str, fault: TextFault) -> Result<bool, AllocError> {
    let Some(row) = drawn_row(fault) else {
        return Ok(true);
    };
    let rows = rows_of(alloc, text)?;
    Ok(is_worth(row_at(&rows, row)))
}

/// Whether a name stands as a word of its own in a text.
fn has_word(text: &str, name: &[u8]) -> bool {
    text.as_bytes()
        .split(|sign| !is_word_char(*sign))
        .any(|word| word.eq_ignore_ascii_case(name))
}

/// Whether a box may have the name before a dot in a row: its rung may be emptied.
fn may_be_a_box(text: &str, row: &str) -> bool {
    before_a_dot(row).is_some_and(|name| has_word(text, name))
}

/// Whether a fault may be one only because a rung is emptied: a name before a dot that stands elsewhere in the text.
fn is_doubtful(alloc: Global, text: &str, fault: TextFault) -> Result<bool, AllocError> {
    match fault {
        TextFault::Bind(fault) if fault.kind == BindKind::UnknownName => {
            let rows = rows_of(alloc, text)?;
            let row = row_of(fault.line);
            let above = row_at(&rows, row.saturating_sub(1));
            Ok(may_be_a_box(text, row_at(&rows, row)) || may_be_a_box(text, above))
        }
        _ => Ok(false),
    }
}

/// Notes a fault of what is left of a text, unless it is one only because rungs are emptied.
fn note_fault(
    alloc: Global,
    whole: &str,
    rest: &str,
    fault: TextFault,
    faults: &mut Vec<TextFault>,
) -> Result<(), AllocError>
    requires left { IsLeftOf whole.now rest.now }
    requires refused { Refuses rest.now fault }
    ensures every { OnOk result (All (IsFurtherIn whole.now) faults.old.items → All (IsFurtherIn whole.now) faults.new.items) }
    ensures few { OnOk result (length faults.new.items ≤ length faults.old.items + 1) }
{
    if is_doubtful(alloc, whole, fault)? {
        return Ok(());
    }
    faults.push(fault)?;
    Ok(())
}

/// Notes the first fault of what is left of a text; what is then left of it. `None`: no further fault is sought.
fn add_fault(
    alloc: Global,
    whole: &str,
    rest: &str,
    is_plant: bool,
    faults: &mut Vec<TextFault>,
) -> Result<Option<String>, AllocError>
    requires { IsLeftOf whole.now rest.now }
    ensures every { OnOk result (All (IsFurtherIn whole.now) faults.old.items → All (IsFurtherIn whole.now) faults.new.items) }
    ensures few { OnOk result (length faults.new.items ≤ length faults.old.items + 1) }
    ensures left { IfOk result (λ left. IfSome left (λ more. IsLeftOf whole.now (string_bytes more))) }
{
    let Some(fault) = first_fault(alloc, rest, is_plant) else {
        return Ok(None);
    };
    if !stands(alloc, rest, fault)? {
        return Ok(None);
    }
    note_fault(alloc, whole, rest, fault, faults)?;
    rest_of(alloc, rest, fault)
}

/// The faults behind the first, nine at most. Each time the rung of the fault before is emptied, as comments are, and the
/// text is read again; it ends where the text is lawful, or with a fault of a plant's word.
pub fn further_faults(
    alloc: Global,
    text: &str,
    first: TextFault,
) -> Result<Vec<TextFault>, AllocError>
    ensures every { IfOk result (λ faults. All (IsFurther text.now) faults.items) }
    ensures few { IfOk result (λ faults. length faults.items ≤ 9) }
{
    let is_plant = matches!(first, TextFault::Plant(_));
    let whole = without_comments(alloc, text)?;
    let mut faults = Vec::new(alloc);
    let mut rest = rest_of(alloc, whole.as_str(), first)?;
    for _round in 0..MOST {
        let Some(read) = rest else {
            return Ok(faults);
        };
        rest = add_fault(alloc, whole.as_str(), read.as_str(), is_plant, &mut faults)?;
    }
    Ok(faults)
}

/// Writes how many faults there are behind the first, and each with its place and kind.
pub fn push_faults(text: &mut String, faults: &[TextFault]) -> Result<(), AllocError> {
    let count = faults.len();
    if count == 0 {
        return Ok(());
    }
    if count == 1 {
        text.push_str("And 1 more fault:\n")?;
    } else if count < MOST {
        write!(text, "And {count} more faults:\n")?;
    } else {
        write!(text, "And at least {count} more faults:\n")?;
    }
    for fault in faults {
        write!(text, "  {fault}\n")?;
    }
    Ok(())
}
