ghost use Rattle.std.specs.Prelude.{◌≡◌, ◌++◌, ◌∷◌, [], IfOk, OnOk, Some, length, slice_get};
ghost use Rattle.std.specs.Option.{option_map, option_map_or};
ghost use Rattle.task_codes.specs.declared.task_ref.TaskRef.{TaskRef};
ghost use Rattle.evaluation.specs.Last.{same_task};
ghost use Rattle.plant.specs.PlantValue.{code_at, tasks_at};
ghost use Rattle.task_codes.specs.declared.task_output.TaskOutput.{TaskOutput};
ghost use Rattle.traces.specs.Moments.{made_at};
ghost use Rattle.traces.specs.Outputs.{code_tracks, output_track, resource_tracks, tracks_of, value_behind, values_from};

use crate::track::{Scope, Track};
use declared_names::first_value;
use evaluation::Evaluation;
use plant::Plant;
use std::alloc::{AllocError, Global};
use std_blocks::Value;
use task_codes::{TaskCode, TaskRef};
use text_lines::push_resource;

/// Whether both are one task.
fn is_same_task(task: TaskRef, other: TaskRef) -> bool
    ensures { result ≡ same_task task other }
{
    task.resource == other.resource && task.task == other.task
}

/// An output of a task behind a moment in which this was evaluated, or nothing.
fn value_behind(task: TaskRef, output: usize, value: Value, made: Option<&Evaluation>) -> Value
    ensures { result ≡ value_behind task output value (option_map (λ x. x.now) made.entry) }
{
    match made {
        Some(made) if is_same_task(made.name().task, task) => {
            made.outputs()
                .values()
                .get(output)
                .copied()
                .unwrap_or(value)
        }
        _ => value,
    }
}

/// The values of an output: the first one, and one behind each moment.
fn values_of(
    alloc: Global,
    moments: &[Option<&Evaluation>],
    task: TaskRef,
    output: usize,
    first: Value,
) -> Result<Vec<Value>, AllocError>
    ensures { IfOk result (λ values. values.items
        ≡ values_from task output first (made_at moments.now)) }
{
    let mut values = Vec::new(alloc);
    let mut value = first;
    values.push(value)?;
    for made in moments {
        value = value_behind(task, output, value, *made);
        values.push(value)?;
    }
    Ok(values)
}

/// Adds an output of a task by its names, with its values.
fn push_output(
    tracks: &mut Vec<Track>,
    alloc: Global,
    plant: &Plant,
    moments: &[Option<&Evaluation>],
    task: TaskRef,
    code: &TaskCode,
    output: usize,
) -> Result<(), AllocError>
    ensures { (o : TaskOutput) → slice_get code.now.outputs output ≡ Some o
        → OnOk result (tracks.new.items ≡ tracks.old.items
        ++ output_track plant.now (made_at moments.now) task code.now output o ∷ []) }
{
    let Some(found) = code.output(output) else {
        return Ok(());
    };
    let Some((program, name)) = code.output_name(output) else {
        return Ok(());
    };
    let mut resource = String::new(alloc);
    push_resource(&mut resource, plant, task.resource)?;
    let program = String::from_str(alloc, program)?;
    let name = String::from_str(alloc, name)?;
    let values = values_of(alloc, moments, task, output, first_value(found.kind))?;
    let scope = Scope::new(resource, program);
    Ok(tracks.push(Track::new(Some(scope), name, values))?)
}

/// Adds the outputs of a task.
fn push_outputs(
    tracks: &mut Vec<Track>,
    alloc: Global,
    plant: &Plant,
    moments: &[Option<&Evaluation>],
    task: TaskRef,
    code: &TaskCode,
) -> Result<(), AllocError>
    ensures { OnOk result (tracks.new.items ≡ tracks.old.items
        ++ code_tracks plant.now (made_at moments.now) task code.now) }
{
    for output in 0..code.outputs() {
        push_output(tracks, alloc, plant, moments, task, code, output)?;
    }
    Ok(())
}

/// Adds the outputs of a task, if there is one.
fn push_task(
    tracks: &mut Vec<Track>,
    alloc: Global,
    plant: &Plant,
    moments: &[Option<&Evaluation>],
    task: TaskRef,
) -> Result<(), AllocError>
    ensures { OnOk result (tracks.new.items ≡ tracks.old.items
        ++ option_map_or (code_tracks plant.now (made_at moments.now) task) (code_at plant.now task) []) }
{
    match plant.code(task) {
        Some(code) => push_outputs(tracks, alloc, plant, moments, task, code),
        None => Ok(()),
    }
}

/// Adds the outputs of a resource's tasks.
fn push_resource_tracks(
    tracks: &mut Vec<Track>,
    alloc: Global,
    plant: &Plant,
    moments: &[Option<&Evaluation>],
    resource: usize,
) -> Result<(), AllocError>
    ensures { OnOk result (tracks.new.items ≡ tracks.old.items
        ++ resource_tracks plant.now (made_at moments.now) resource (length (tasks_at plant.now resource))) }
{
    for task in 0..plant.tasks(resource).len() {
        push_task(tracks, alloc, plant, moments, TaskRef { resource, task })?;
    }
    Ok(())
}

/// The outputs of all tasks of a plant, each with its values.
pub fn output_tracks(
    alloc: Global,
    plant: &Plant,
    moments: &[Option<&Evaluation>],
) -> Result<Vec<Track>, AllocError>
    ensures { IfOk result (λ tracks. tracks.items ≡ tracks_of plant.now (made_at moments.now)) }
{
    let mut tracks = Vec::new(alloc);
    for resource in 0..plant.resources() {
        push_resource_tracks(&mut tracks, alloc, plant, moments, resource)?;
    }
    Ok(tracks)
}
