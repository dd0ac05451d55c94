//! The tasks from which a task takes, and its bindings once they are known.

ghost use Rattle.std.specs.Prelude.{◌≡◌, ◌∷◌, [], Some, All, Contains, IfOk, OnOk, map, slice_get};
ghost use Rattle.std.specs.List.{AllZip, flat_map};
ghost use Rattle.plant.specs.PlantValue.{code_at};
ghost use Rattle.task_codes.specs.CodeValue.{lists_of};
ghost use Rattle.plant.specs.StandsFor.{firsts};
ghost use Rattle.plant.specs.Steps.Drafts.{seen, drafted, AddsFirsts, tasks_taken, all_taken, AreKindsOf, IsPlacedBinding, IsTakenFrom, IsTaskOf};
ghost use Rattle.plant.specs.Steps.FedUses.{feeds_in};

use crate::sources::fed_use::FedUse;
use crate::sources::feed::{Feed, Origin};
use crate::sources::resource_draft::ResourceDraft;
use crate::sources::task_draft::TaskDraft;
use declared_names::Kind;
use std::alloc::{AllocError, Global};
use task_codes::{Binding, Source, TaskRef};

/// Adds a task if it isn't there yet.
fn push_first(producers: &mut Vec<TaskRef>, task: TaskRef) -> Result<(), AllocError>
    ensures { OnOk result (AddsFirsts producers.old.items producers.new.items (task ∷ [])) }
{
    if producers.contains(&task) {
        return Ok(());
    }
    producers.push(task)?;
    Ok(())
}

/// Adds the task from which a bound input takes.
fn push_taken(producers: &mut Vec<TaskRef>, feed: &Feed) -> Result<(), AllocError>
    ensures { OnOk result (AddsFirsts producers.old.items producers.new.items (tasks_taken feed.now)) }
{
    match feed.origin {
        Origin::Field(_) => Ok(()),
        Origin::Output { task, .. } => {
            push_first(producers, task)?;
            Ok(())
        }
    }
}

/// Adds the tasks from which the bound inputs of a program take.
fn push_all_taken(producers: &mut Vec<TaskRef>, feeds: &[Feed]) -> Result<(), AllocError>
    ensures { OnOk result (AddsFirsts producers.old.items producers.new.items (flat_map tasks_taken feeds.now)) }
{
    for feed in feeds {
        push_taken(producers, feed)?;
    }
    Ok(())
}

/// The tasks from which instances take, in order of first mention.
pub fn producers_of(alloc: Global, fed: &[&FedUse<'_>]) -> Result<Vec<TaskRef>, AllocError>
    ensures { IfOk result (λ ps. ps.items ≡ firsts (all_taken (feeds_in (seen fed.now)))) }
{
    let mut producers = Vec::new(alloc);
    for run in fed {
        push_all_taken(&mut producers, run.feeds())?;
    }
    Ok(producers)
}

/// The draft of a task.
fn draft_at(drafts: &[ResourceDraft], task: TaskRef) -> &TaskDraft
    requires { IsTaskOf (drafted drafts.now) task }
    ensures { code_at (drafted drafts.now) task ≡ Some result.now }
{
    &drafts[task.resource].tasks()[task.task]
}

/// The kinds of the values of a task's image.
fn kinds_of(alloc: Global, task: &TaskDraft) -> Result<Vec<Kind>, AllocError>
    ensures { IfOk result (λ ks. ks.items ≡ map (λ o. o.kind) task.now.outputs) }
{
    let mut kinds = Vec::new(alloc);
    for output in task.outputs() {
        kinds.push(output.kind)?;
    }
    Ok(kinds)
}

/// The kinds of the values of each producer's image.
pub fn expected_of(
    alloc: Global,
    drafts: &[ResourceDraft],
    producers: &[TaskRef],
) -> Result<Vec<Vec<Kind>>, AllocError>
    requires { All (IsTaskOf (drafted drafts.now)) producers.now }
    ensures { IfOk result (λ es. AllZip (AreKindsOf (drafted drafts.now)) producers.now (lists_of es.items)) }
{
    let mut expected = Vec::new(alloc);
    for producer in producers {
        let kinds = kinds_of(alloc, draft_at(drafts, *producer))?;
        expected.push(kinds)?;
    }
    Ok(expected)
}

/// The position of a task among the producers.
fn position_of(producers: &[TaskRef], task: TaskRef) -> usize
    requires { Contains producers.now task }
    ensures { slice_get producers.now result ≡ Some task }
{
    for (k, producer) in producers.iter().enumerate() {
        if *producer == task {
            return k;
        }
    }
    unreachable!()
}

/// The binding of a bound input.
fn binding(producers: &[TaskRef], feed: &Feed) -> Binding
    requires { IsTakenFrom producers.now feed.now }
    ensures { IsPlacedBinding producers.now feed.now result }
{
    let source = match feed.origin {
        Origin::Field(address) => Source::Field(address),
        Origin::Output { task, output } => Source::Given {
            producer: position_of(producers, task),
            output,
        },
    };
    Binding {
        place: feed.place,
        source,
    }
}

/// The bindings of a program.
fn bindings(
    alloc: Global,
    producers: &[TaskRef],
    feeds: &[Feed],
) -> Result<Vec<Binding>, AllocError>
    requires { All (IsTakenFrom producers.now) feeds.now }
    ensures { IfOk result (λ bs. AllZip (IsPlacedBinding producers.now) feeds.now bs.items) }
{
    let mut bindings = Vec::new(alloc);
    for feed in feeds {
        bindings.push(binding(producers, feed))?;
    }
    Ok(bindings)
}

/// The bindings of instances.
pub fn bindings_of(
    alloc: Global,
    producers: &[TaskRef],
    fed: &[&FedUse<'_>],
) -> Result<Vec<Vec<Binding>>, AllocError>
    requires { All (All (IsTakenFrom producers.now)) (feeds_in (seen fed.now)) }
    ensures { IfOk result (λ bs. AllZip (AllZip (IsPlacedBinding producers.now)) (feeds_in (seen fed.now)) (lists_of bs.items)) }
{
    let mut all = Vec::new(alloc);
    for run in fed {
        all.push(bindings(alloc, producers, run.feeds())?)?;
    }
    Ok(all)
}
