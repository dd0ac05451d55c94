//! Which evaluation a line is about.

ghost use Rattle.std.specs.Prelude.{◌++◌, IfSome, codes};
ghost use Rattle.std.specs.Option.{option_map};
ghost use Rattle.text_lines.specs.LineParts.{task_text};
ghost use Rattle.text_lines.specs.ReadParts.{IsBehind};
ghost use Rattle.text_lines.specs.MessageLines.{IsSmall};
ghost use Rattle.text_lines.specs.Steps.Reading.{before_pair, dotted, pair_text, IsPair, IsRead};

use crate::beginnings::behind;
use crate::behind_parts::behind_three;
use crate::first_words::number_at;
use crate::names::{resource_name, task_name};
use plant::Plant;
use task_codes::TaskRef;

/// What stands behind a task's name, as `R1.FAST`.
fn behind_name<'a>(text: &'a [u8], plant: &Plant, task: TaskRef) -> Option<&'a [u8]>
    ensures { IsBehind text.now (task_text plant.now task) (option_map (λ rest. rest.now) result) }
{
    let resource = resource_name(plant, task.resource).as_bytes();
    behind_three(text, resource, b".", task_name(plant, task).as_bytes())
}

/// What stands behind a task's name and a blank.
fn behind_word<'a>(text: &'a [u8], plant: &Plant, task: TaskRef) -> Option<&'a [u8]>
    ensures { IsBehind text.now (task_text plant.now task ++ codes " ") (option_map (λ rest. rest.now) result) }
{
    match behind_name(text, plant, task) {
        Some(rest) => behind(rest, b" "),
        None => None,
    }
}

/// What stands behind `MESSAGE`, a task's name and a blank.
pub(crate) fn behind_task<'a>(line: &'a [u8], plant: &Plant, task: TaskRef) -> Option<&'a [u8]>
    ensures { IsBehind line.now (before_pair plant.now task) (option_map (λ rest. rest.now) result) }
{
    match behind(line, b"MESSAGE ") {
        Some(rest) => behind_word(rest, plant, task),
        None => None,
    }
}

/// The number behind a dot, and the rest from the blank behind it on.
fn number_behind_dot(text: &[u8]) -> Option<(u32, &[u8])>
    ensures small { IfSome result (λ r. IsSmall r.0) }
    ensures read { IsRead dotted IsSmall 32 text.now (option_map (λ r. (r.0, r.1.now)) result) }
{
    match behind(text, b".") {
        Some(rest) => number_at(rest, b' '),
        None => None,
    }
}

/// The incarnation and the number with which a text begins, as `1.2`, and the rest from the blank behind them on.
pub(crate) fn pair_at(text: &[u8]) -> Option<((u32, u32), &[u8])>
    ensures small { IfSome result (λ r. IsPair r.0) }
    ensures read { IsRead pair_text IsPair 32 text.now (option_map (λ r. (r.0, r.1.now)) result) }
{
    let Some((incarnation, rest)) = number_at(text, b'.') else {
        return None;
    };
    match number_behind_dot(rest) {
        Some((number, rest)) => Some(((incarnation, number), rest)),
        None => None,
    }
}
