//! The expectation that a word spells.

ghost use Rattle.std.specs.Prelude.{◌≡◌, ◌<◌, ℕ, List, Some, IfNone, IfOk, IfSome, length};
ghost use Rattle.std_blocks.specs.declared.value.Value.{Value as OutputValue};
ghost use Rattle.evaluation.specs.InputTexts.{sign_of};
ghost use Rattle.plant.specs.Find.{Finds};
ghost use Rattle.plant.specs.PlantValue.{IsSoundPlant};
ghost use Rattle.task_codes.specs.declared.task_ref.TaskRef.{TaskRef as TaskValue};
ghost use Rattle.tested_schedules.specs.declared.expectation.Expectation.{Expectation as Expected};
ghost use Rattle.tested_schedules.specs.Expectations.{IsExpectation, expected_at, kind_at};
ghost use Rattle.tested_schedules.specs.Steps.Finding.{IsExpectedOf, IsParted};

use crate::expectation::Expectation;
use crate::output_names::push_output;
use crate::values::value_in;
use declared_names::Kind;
use plant::Plant;
use std::alloc::{AllocError, Global};
use std_blocks::Value;
use task_codes::TaskRef;

/// A word in two parts, before and behind its first `=`.
#[derive(Clone, Copy)]
struct Parts<'a> {
    name: &'a [u8],
    value: &'a [u8],
}

/// Where the first `=` stands.
fn sign_in(word: &[u8]) -> Option<usize>
    ensures value { result ≡ sign_of word.now }
    ensures bound { IfSome result (λ i. i < length word.now) }
{
    word.iter().position(|c| *c == b'=')
}

/// The parts of a word. `None`: it has no `=`.
fn parts_of(word: &[u8]) -> Option<Parts<'_>>
    ensures { IsParted word.entry.now result }
{
    let Some(sign) = sign_in(word) else {
        return None;
    };
    Some(Parts {
        name: &word[..sign],
        value: &word[sign + 1..],
    })
}

/// The kind of an output.
fn kind_at(plant: &Plant, task: TaskRef, place: usize) -> Option<Kind>
    ensures { result ≡ kind_at plant.now task place }
{
    let output = plant.code(task)?.output(place)?;
    Some(output.kind)
}

/// The value of an output that the parts of a word expect, if it is theirs.
fn value_at(
    alloc: Global,
    plant: &Plant,
    parts: Parts<'_>,
    task: TaskRef,
    place: usize,
) -> Result<Option<Value>, AllocError>
    ensures { IfOk result (λ value. value ≡ expected_at plant.now parts.entry.name.now parts.entry.value.now task place) }
{
    let Some(kind) = kind_at(plant, task, place) else {
        return Ok(None);
    };
    let mut name = String::new(alloc);
    push_output(&mut name, plant, task, place)?;
    if parts.name.eq_ignore_ascii_case(name.as_bytes()) {
        Ok(value_in(kind, parts.value))
    } else {
        Ok(None)
    }
}

/// How many outputs a task has.
fn outputs_of(plant: &Plant, task: TaskRef) -> usize
    ensures { (name written : List ℕ) (place : ℕ) (value : OutputValue)
        → expected_at plant.now name written task place ≡ Some value → place < result }
{
    match plant.code(task) {
        Some(code) => code.outputs(),
        None => 0,
    }
}

/// What the parts of a word expect of a task: the place of an output, and its value.
fn find_in_task(
    alloc: Global,
    plant: &Plant,
    parts: Parts<'_>,
    task: TaskRef,
) -> Result<Option<(usize, Value)>, AllocError>
    ensures { IfOk result (Finds (λ (f : ℕ × OutputValue).
        expected_at plant.now parts.entry.name.now parts.entry.value.now task f.0 ≡ Some f.1)) }
{
    for place in 0..outputs_of(plant, task) {
        if let Some(value) = value_at(alloc, plant, parts, task, place)? {
            return Ok(Some((place, value)));
        }
    }
    Ok(None)
}

/// What the parts of a word expect of the tasks of a resource.
fn find_in_resource(
    alloc: Global,
    plant: &Plant,
    parts: Parts<'_>,
    resource: usize,
) -> Result<Option<Expectation>, AllocError>
    requires sound { IsSoundPlant plant.now }
    ensures some { IfOk result (λ found. IfSome found (IsExpectedOf plant.now parts.entry.name.now parts.entry.value.now)) }
    ensures none { IfOk result (λ found. IfNone found ((x : Expected) → x.task.resource ≡ resource
        → IsExpectedOf plant.now parts.entry.name.now parts.entry.value.now x → ⊥)) }
{
    for task in 0..plant.tasks(resource).len() {
        let task = TaskRef { resource, task };
        if let Some((place, value)) = find_in_task(alloc, plant, parts, task)? {
            return Ok(Some(Expectation { task, place, value }));
        }
    }
    Ok(None)
}

/// What a word such as `R1.A.N=1` expects. `None`: it isn't an output's name, a `=`, and a value of its kind.
pub fn find_expectation(
    alloc: Global,
    plant: &Plant,
    word: &[u8],
) -> Result<Option<Expectation>, AllocError>
    ensures { IfOk result (Finds (IsExpectation plant.now word.now)) }
{
    let Some(parts) = parts_of(word) else {
        return Ok(None);
    };
    for resource in 0..plant.resources() {
        if let Some(expectation) = find_in_resource(alloc, plant, parts, resource)? {
            return Ok(Some(expectation));
        }
    }
    Ok(None)
}
