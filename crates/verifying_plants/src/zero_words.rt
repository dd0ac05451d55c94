//! The words of the field that are 0 in all runs that are looked at.

ghost use Rattle.std.specs.Prelude.{◌≡◌, ◌==◌, IfOk, OnOk};
ghost use Rattle.std.specs.List.{flat_map, list_any};
ghost use Rattle.task_codes.specs.CodeValue.{lists_of};
ghost use Rattle.task_codes.specs.declared.binding.Binding.{Binding as BindingValue};
ghost use Rattle.evaluation.specs.Inputs.{same_address};
ghost use Rattle.plant_claims.specs.Claims.{range_address};
ghost use Rattle.plant_claims.specs.Steps.Scoping.{is_listed};
ghost use Rattle.verifying_plants.specs.ZeroWords.{first_tasks, is_told, is_zero_word, with_number, with_numbers, zero_word, zero_words_at, zero_words_of, AreZeroWords};

use crate::reached_tasks::{is_listed, reached_tasks};
use plant::Plant;
use plant_claims::{FieldRange, Output, Question};
use std::alloc::{AllocError, Global};
use task_codes::{Binding, Source, TaskCode, TaskRef};
use words::{Address, Space};

/// Whether a word tells what an address holds.
fn tells_of(range: FieldRange, address: Address) -> bool
    ensures { result ≡ same_address (range_address range) address }
{
    match (range, address.space) {
        (FieldRange::Bit { number, .. }, Space::Bit) => number == address.number,
        (FieldRange::Word { number, .. }, Space::Word) => number == address.number,
        _ => false,
    }
}

fn is_told(ranges: &[FieldRange], address: Address) -> bool
    ensures { result ≡ is_told ranges.now address }
{
    ranges.iter().any(|range| tells_of(*range, address))
}

/// Whether an address is that of a word of which none tells.
fn is_zero_word(ranges: &[FieldRange], address: Address) -> bool
    ensures { result ≡ is_zero_word ranges.now address }
{
    match address.space {
        Space::Bit => false,
        Space::Word => !is_told(ranges, address),
    }
}

fn has_number(numbers: &[u16], number: u16) -> bool
    ensures { result ≡ list_any (λ m. m == number) numbers.now }
{
    numbers.iter().any(|other| *other == number)
}

/// Puts a number behind others, unless it is one of them.
fn push_number(numbers: &mut Vec<u16>, number: u16) -> Result<(), AllocError>
    ensures { OnOk result (numbers.new.items ≡ with_number numbers.old.items number) }
{
    if has_number(numbers, number) {
        return Ok(());
    }
    numbers.push(number)?;
    Ok(())
}

/// Puts down the word from which a source reads, if none tells of it.
fn push_word(
    numbers: &mut Vec<u16>,
    ranges: &[FieldRange],
    source: Source,
) -> Result<(), AllocError>
    ensures { OnOk result (numbers.new.items ≡ with_numbers numbers.old.items (zero_word ranges.now source)) }
{
    let Source::Field(address) = source else {
        return Ok(());
    };
    if !is_zero_word(ranges, address) {
        return Ok(());
    }
    push_number(numbers, address.number)
}

fn push_words(
    numbers: &mut Vec<u16>,
    ranges: &[FieldRange],
    bindings: &[Binding],
) -> Result<(), AllocError>
    ensures { OnOk result (numbers.new.items
        ≡ with_numbers numbers.old.items (flat_map (λ (b : BindingValue). zero_word ranges.now b.source) bindings.now)) }
{
    for binding in bindings {
        push_word(numbers, ranges, binding.source)?;
    }
    Ok(())
}

/// Puts down the words that the inputs of a task read, and of which none tells.
fn push_words_of(
    numbers: &mut Vec<u16>,
    ranges: &[FieldRange],
    code: &TaskCode,
) -> Result<(), AllocError>
    ensures { OnOk result (numbers.new.items ≡ with_numbers numbers.old.items (zero_words_of ranges.now code.now)) }
{
    for program in 0..code.programs() {
        push_words(numbers, ranges, code.bindings(program))?;
    }
    Ok(())
}

/// Those of a task, if it is looked at.
fn push_words_at(
    numbers: &mut Vec<u16>,
    question: &Question,
    tasks: &[TaskRef],
    task: TaskRef,
) -> Result<(), AllocError>
    ensures { OnOk result (numbers.new.items
        ≡ with_numbers numbers.old.items (zero_words_at question.now (is_listed tasks.now) task)) }
{
    if !is_listed(tasks, task) {
        return Ok(());
    }
    match question.plant.code(task) {
        Some(code) => push_words_of(numbers, &question.ranges, code),
        None => Ok(()),
    }
}

/// Those of the tasks of a resource that are looked at.
fn push_words_in(
    numbers: &mut Vec<u16>,
    question: &Question,
    tasks: &[TaskRef],
    resource: usize,
    count: usize,
) -> Result<(), AllocError>
    ensures { OnOk result (numbers.new.items
        ≡ with_numbers numbers.old.items (flat_map (zero_words_at question.now (is_listed tasks.now)) (first_tasks resource count))) }
{
    for task in 0..count {
        push_words_at(numbers, question, tasks, TaskRef { resource, task })?;
    }
    Ok(())
}

/// The numbers of the words that are 0 in all runs that are looked at, by first mention in the plant's tasks.
pub(crate) fn zero_words(
    alloc: Global,
    question: &Question,
    claims: &[Vec<Output>],
) -> Result<Vec<u16>, AllocError>
    ensures { IfOk result (λ numbers. AreZeroWords question.now (lists_of claims.now) numbers.items) }
{
    let plant = &question.plant;
    let tasks = reached_tasks(alloc, plant, &question.given, claims)?;
    let mut numbers = Vec::new(alloc);
    for resource in 0..plant.resources() {
        push_words_in(
            &mut numbers,
            question,
            &tasks,
            resource,
            plant.tasks(resource).len(),
        )?;
    }
    Ok(numbers)
}
