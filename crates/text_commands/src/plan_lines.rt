//! The lines for an entry of a plan.

ghost use Rattle.std.specs.Prelude.{◌≡◌, OnOk};
ghost use Rattle.std.specs.List.{flat_map, list_any};
ghost use Rattle.evaluation.specs.Last.{same_task};
ghost use Rattle.plant.specs.PlantValue.{producers_at};
ghost use Rattle.text_lines.specs.Growing.{GrowsBy};
ghost use Rattle.text_commands.specs.PlanText.{interval_at, has_taker, is_taker, takers_of, moment_line, evaluation_line, delivery_line, entry_lines};

use crate::plan_form::PlanForm;
use plant::Plant;
use std::alloc::AllocError;
use std::fmt::Write;
use task_codes::{Due, TaskRef};
use text_lines::{push_resource, push_task};

/// The time from one evaluation of a task to the next, in ms.
pub fn interval_of(plant: &Plant, task: TaskRef) -> u32
    ensures { result ≡ interval_at plant.now task }
{
    match plant.tasks(task.resource).get(task.task) {
        Some(found) => found.interval(),
        None => 0,
    }
}

/// Whether a task takes from another one.
fn takes(plant: &Plant, task: TaskRef, producer: TaskRef) -> bool
    ensures { result ≡ list_any (λ p. same_task p producer) (producers_at plant.now task) }
{
    plant.producers(task).iter().any(|found| *found == producer)
}

/// Whether some task of a resource takes from a task.
fn has_taker(plant: &Plant, resource: usize, producer: TaskRef) -> bool
    ensures { result ≡ has_taker plant.now resource producer }
{
    // The getter hands out that each task has its code.
    let _resources = plant.resources();
    for task in 0..plant.tasks(resource).len() {
        if takes(plant, TaskRef { resource, task }, producer) {
            return true;
        }
    }
    false
}

/// Whether what a task gives is delivered to a resource.
fn is_taker(plant: &Plant, task: TaskRef, resource: usize) -> bool
    ensures { result ≡ is_taker plant.now task resource }
{
    resource != task.resource && has_taker(plant, resource, task)
}

/// Writes `10 R1.FAST` behind lines.
fn push_moment(lines: &mut String, plant: &Plant, due: Due) -> Result<(), AllocError>
    ensures { OnOk result (GrowsBy lines.old lines.new (moment_line plant.now due)) }
{
    let moment = due.moment;
    write!(lines, "{moment} ")?;
    push_task(lines, plant, due.task)?;
    lines.push_str("\n")
}

/// Writes `EVAL R1.FAST 10` behind lines.
fn push_evaluation(lines: &mut String, plant: &Plant, task: TaskRef) -> Result<(), AllocError>
    ensures { OnOk result (GrowsBy lines.old lines.new (evaluation_line plant.now task)) }
{
    let interval = interval_of(plant, task);
    lines.push_str("EVAL ")?;
    push_task(lines, plant, task)?;
    write!(lines, " {interval}\n")
}

/// Writes `DELIVER 1 R2` behind lines.
fn push_delivery(
    lines: &mut String,
    plant: &Plant,
    message: usize,
    resource: usize,
) -> Result<(), AllocError>
    ensures { OnOk result (GrowsBy lines.old lines.new (delivery_line plant.now message resource)) }
{
    write!(lines, "DELIVER {message} ")?;
    push_resource(lines, plant, resource)?;
    lines.push_str("\n")
}

/// Writes the deliveries of what a task gives behind lines, in the order of the resources.
fn push_deliveries(
    lines: &mut String,
    plant: &Plant,
    message: usize,
    task: TaskRef,
) -> Result<(), AllocError>
    ensures { OnOk result
        (GrowsBy lines.old lines.new (flat_map (delivery_line plant.now message) (takers_of plant.now task))) }
{
    for resource in 0..plant.resources() {
        if is_taker(plant, task, resource) {
            push_delivery(lines, plant, message, resource)?;
        }
    }
    Ok(())
}

/// Writes the lines for an entry of a plan behind lines; `message` is its place in the plan, counted from 1.
pub fn push_entry(
    lines: &mut String,
    plant: &Plant,
    form: PlanForm,
    message: usize,
    due: Due,
) -> Result<(), AllocError>
    ensures { OnOk result (GrowsBy lines.old lines.new (entry_lines plant.now form (message, due))) }
{
    match form {
        PlanForm::Moments => push_moment(lines, plant, due),
        PlanForm::Schedule => {
            push_evaluation(lines, plant, due.task)?;
            push_deliveries(lines, plant, message, due.task)
        }
    }
}
