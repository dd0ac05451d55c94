//! The message that a line is.

ghost use Rattle.std.specs.Prelude.{◌≡◌, ◌↔◌, IsTrue, IfOk, IfSome, MatchOption, Some};
ghost use Rattle.std.specs.Option.{option_map};
ghost use Rattle.std.specs.List.{AllByRecursion, AllZip};
ghost use Rattle.declared_names.specs.Kinds.{kind_of};
ghost use Rattle.plant.specs.PlantValue.{IsSoundPlant, code_at};
ghost use Rattle.text_lines.specs.MessageLines.{message_line, HasForm, IsMessageOf, IsNoMessage};
ghost use Rattle.text_lines.specs.Steps.Reading.{HasHeardItself, IsRoughly, IsFreelyRead, IsNoneOf, IsNoneIn};

use crate::beginnings::are_same;
use crate::heard::all_heard_behind;
use crate::message_line::push_message;
use crate::message_names::{behind_task, pair_at};
use crate::outputs::gives_behind;
use evaluation::{Image, Message, Name};
use plant::Plant;
use std::alloc::{AllocError, Global};
use task_codes::{TaskCode, TaskRef};

/// A message of a task: the one that a line is, if it is one. Other lines may be read too.
fn read_freely(
    alloc: Global,
    plant: &Plant,
    task: TaskRef,
    code: &TaskCode,
    line: &[u8],
) -> Result<Option<Message>, AllocError>
    requires { code_at plant.now task ≡ Some code.now }
    ensures roughly { IfOk result (λ found. IfSome found (IsRoughly plant.now task)) }
    ensures read { IfOk result (IsFreelyRead plant.now task line.now) }
{
    let Some(rest) = behind_task(line, plant, task) else {
        return Ok(None);
    };
    let Some(((incarnation, number), rest)) = pair_at(rest) else {
        return Ok(None);
    };
    let Some((heard, rest)) = all_heard_behind(alloc, rest, plant)? else {
        return Ok(None);
    };
    let Some(values) = gives_behind(alloc, rest, code)? else {
        return Ok(None);
    };
    let name = Name {
        task,
        incarnation,
        number,
    };
    Ok(Some(Message::of(alloc, name, heard, Image::of(values))?))
}

/// Whether the maker of a message has heard of its own incarnation.
fn has_heard_itself(message: &Message) -> bool
    ensures { IsTrue result ↔ HasHeardItself message.now }
{
    let name = message.name();
    message.is_addressed(name.task.resource, name.incarnation)
}

/// Whether a line is that of a message.
fn is_line_of(
    alloc: Global,
    plant: &Plant,
    line: &[u8],
    message: &Message,
) -> Result<bool, AllocError>
    requires { HasForm plant.now message.now }
    ensures { IfOk result (λ is. IsTrue is ↔ (line.now ≡ message_line plant.now message.now)) }
{
    let mut text = String::new(alloc);
    push_message(&mut text, plant, message)?;
    Ok(are_same(line, text.as_bytes()))
}

/// The message of a task that a line is.
fn read_of_task(
    alloc: Global,
    plant: &Plant,
    task: TaskRef,
    line: &[u8],
) -> Result<Option<Message>, AllocError>
    ensures { IfOk result (λ found. MatchOption found (IsNoneOf plant.now task line.now)
        (λ m. IsMessageOf plant.now m × (line.now ≡ message_line plant.now m))) }
{
    let Some(code) = plant.code(task) else {
        return Ok(None);
    };
    let Some(message) = read_freely(alloc, plant, task, code, line)? else {
        return Ok(None);
    };
    if !has_heard_itself(&message) {
        return Ok(None);
    }
    if is_line_of(alloc, plant, line, &message)? {
        Ok(Some(message))
    } else {
        Ok(None)
    }
}

/// The message of a task of a resource that a line is.
fn read_of_resource(
    alloc: Global,
    plant: &Plant,
    resource: usize,
    line: &[u8],
) -> Result<Option<Message>, AllocError>
    requires { IsSoundPlant plant.now }
    ensures { IfOk result (λ found. MatchOption found (IsNoneIn plant.now resource line.now)
        (λ m. IsMessageOf plant.now m × (line.now ≡ message_line plant.now m))) }
{
    for task in 0..plant.tasks(resource).len() {
        let found = read_of_task(alloc, plant, TaskRef { resource, task }, line)?;
        if found.is_some() {
            return Ok(found);
        }
    }
    Ok(None)
}

/// The message of a plant that a line is. `line` is without its line feed.
pub fn read_message(
    alloc: Global,
    plant: &Plant,
    line: &[u8],
) -> Result<Option<Message>, AllocError>
    ensures { IfOk result (λ found. MatchOption found (IsNoMessage plant.now line.now)
        (λ m. IsMessageOf plant.now m × (line.now ≡ message_line plant.now m))) }
{
    for resource in 0..plant.resources() {
        let found = read_of_resource(alloc, plant, resource, line)?;
        if found.is_some() {
            return Ok(found);
        }
    }
    Ok(None)
}
