ghost use Rattle.std.specs.Prelude.{◌≡◌, ◌≤◌, IfOk, length, slice_get, string_bytes};
ghost use Rattle.keepers.specs.BadLines.{IsBadAt, expected_text, range_text};

use crate::retained_text::before_value;
use declared_names::Kind;
use std::alloc::{AllocError, Global};
use task_codes::TaskCode;

/// Where the file of a task departs from what is kept of its retained variables.
#[derive(Debug, Drop)]
pub struct BadLine {
    /// The number of the line, counted from 1.
    pub line: usize,
    /// What is to stand there.
    pub expected: String,
}

/// What the text of a value of a kind can be.
fn range_text(kind: Kind) -> &'static str
    ensures { result.now ≡ range_text kind }
{
    match kind {
        Kind::Bool => "0 or 1",
        Kind::Int => "-32768 to 32767",
        Kind::Time => "T#0ms to T#4294967295ms",
    }
}

/// What is to stand in the line at a place, counted from 0.
fn expected_at(alloc: Global, code: &TaskCode, place: usize) -> Result<String, AllocError>
    ensures { IfOk result (λ text. string_bytes text ≡ expected_text code.now (slice_get code.now.retained place)) }
{
    match code.retained().get(place) {
        None => String::from_str(alloc, "the end of the file"),
        Some(variable) => {
            let before = before_value(alloc, code, *variable)?;
            format!(in alloc; "{before}{}", range_text(variable.kind))
        }
    }
}

impl BadLine {
    /// The line at a place, counted from 0.
    pub(crate) fn at(alloc: Global, code: &TaskCode, place: usize) -> Result<BadLine, AllocError>
        requires { place ≤ length code.now.retained }
        ensures { IfOk result (IsBadAt code.now place) }
    {
        let _variables = code.retained();
        Ok(BadLine {
            line: place.saturating_add(1),
            expected: expected_at(alloc, code, place)?,
        })
    }
}
