//! What a plant runs, before its sources are resolved: the programs of each task, and their outputs.

ghost use Rattle.std.specs.Prelude.{◌≡◌, ◌++◌, All, IfOk, OnOk};
ghost use Rattle.std.specs.List.{AllZip, flat_map};
ghost use Rattle.plant_grammar.specs.Lawful.{tasks_of, task_of, use_of, uses_of};
ghost use Rattle.plant.specs.StandsFor.{runs_in};
ghost use Rattle.plant.specs.Steps.Drafts.{seen, runs_at, programs_in, IsProgramOf, IsDraftOf, IsResourceDraft, IsTypeKnown};

use crate::program_type::{ProgramType, type_named};
use crate::sources::resource_draft::ResourceDraft;
use crate::sources::task_draft::TaskDraft;
use plant_grammar::{Item, Name, Resource, TaskLine, Use, retained_places};
use std::alloc::{AllocError, Global};
use std::sync::Arc;
use task_codes::ProgramInstance;

/// Adds an item if it is a task.
fn push_task<'a>(tasks: &mut Vec<&'a TaskLine>, item: &'a Item) -> Result<(), AllocError>
    ensures { OnOk result (seen tasks.new.items ≡ seen tasks.old.items ++ task_of item.now) }
{
    match item {
        Item::Task(task) => {
            tasks.push(task)?;
            Ok(())
        }
        Item::Use(_) => Ok(()),
    }
}

/// The tasks of a resource, in order of declaration.
pub fn tasks_of<'a>(alloc: Global, resource: &'a Resource) -> Result<Vec<&'a TaskLine>, AllocError>
    ensures { IfOk result (λ ts. seen ts.items ≡ tasks_of resource.now) }
{
    let mut tasks = Vec::new(alloc);
    for item in &resource.items {
        push_task(&mut tasks, item)?;
    }
    Ok(tasks)
}

/// Adds an item if it is an instance.
fn push_use<'a>(uses: &mut Vec<&'a Use>, item: &'a Item) -> Result<(), AllocError>
    ensures { OnOk result (seen uses.new.items ≡ seen uses.old.items ++ use_of item.now) }
{
    match item {
        Item::Task(_) => Ok(()),
        Item::Use(run) => {
            uses.push(run)?;
            Ok(())
        }
    }
}

/// The instances of a resource, in order of declaration.
pub fn uses_of<'a>(alloc: Global, resource: &'a Resource) -> Result<Vec<&'a Use>, AllocError>
    ensures { IfOk result (λ us. seen us.items ≡ uses_of resource.now) }
{
    let mut uses = Vec::new(alloc);
    for item in &resource.items {
        push_use(&mut uses, item)?;
    }
    Ok(uses)
}

/// Adds an item if it is an instance that the task of a name runs.
fn push_run<'a>(runs: &mut Vec<&'a Use>, task: &Name, item: &'a Item) -> Result<(), AllocError>
    ensures { OnOk result (seen runs.new.items ≡ seen runs.old.items ++ runs_at task.now item.now) }
{
    match item {
        Item::Use(run) if run.task.is_same(task) => {
            runs.push(run)?;
            Ok(())
        }
        _ => Ok(()),
    }
}

/// The instances that a task of a resource runs, in order of declaration.
pub fn runs_in<'a>(
    alloc: Global,
    resource: &'a Resource,
    task: &TaskLine,
) -> Result<Vec<&'a Use>, AllocError>
    ensures { IfOk result (λ us. seen us.items ≡ runs_in resource.now task.now) }
{
    let mut runs = Vec::new(alloc);
    for item in &resource.items {
        push_run(&mut runs, &task.name, item)?;
    }
    Ok(runs)
}

/// The program that an instance runs, by its type.
fn draft_program(
    alloc: Global,
    types: &[ProgramType],
    run: &Use,
) -> Result<ProgramInstance, AllocError>
    requires { IsTypeKnown types.now run.now }
    ensures { IfOk result (IsProgramOf (programs_in types.now) run.now) }
{
    let Some(found) = type_named(types, &run.program) else {
        unreachable!()
    };
    let name = run.instance.try_text(alloc)?;
    let ladder = Arc::try_clone(found.ladder())?;
    let retained = retained_places(alloc, found.program())?;
    Ok(ProgramInstance::new(name, ladder, retained))
}

/// The programs that instances run.
fn draft_programs(
    alloc: Global,
    types: &[ProgramType],
    runs: &[&Use],
) -> Result<Vec<ProgramInstance>, AllocError>
    requires { All (IsTypeKnown types.now) (seen runs.now) }
    ensures { IfOk result (λ ps. AllZip (IsProgramOf (programs_in types.now)) (seen runs.now) ps.items) }
{
    let mut programs = Vec::new(alloc);
    for run in runs {
        programs.push(draft_program(alloc, types, run)?)?;
    }
    Ok(programs)
}

/// The draft of a task.
fn draft_task(
    alloc: Global,
    types: &[ProgramType],
    resource: &Resource,
    task: &TaskLine,
) -> Result<TaskDraft, AllocError>
    requires { All (IsTypeKnown types.now) (uses_of resource.now) }
    ensures { IfOk result (IsDraftOf (programs_in types.now) resource.now task.now) }
{
    let runs = runs_in(alloc, resource, task)?;
    let programs = draft_programs(alloc, types, runs.as_slice())?;
    let draft = TaskDraft::new(alloc, programs)?;
    Ok(draft)
}

/// The drafts of tasks of a resource.
fn draft_tasks(
    alloc: Global,
    types: &[ProgramType],
    resource: &Resource,
    tasks: &[&TaskLine],
) -> Result<Vec<TaskDraft>, AllocError>
    requires { All (IsTypeKnown types.now) (uses_of resource.now) }
    ensures { IfOk result (λ ds. AllZip (IsDraftOf (programs_in types.now) resource.now) (seen tasks.now) ds.items) }
{
    let mut drafts = Vec::new(alloc);
    for task in tasks {
        drafts.push(draft_task(alloc, types, resource, task)?)?;
    }
    Ok(drafts)
}

/// The draft of a resource.
fn draft_resource(
    alloc: Global,
    types: &[ProgramType],
    resource: &Resource,
) -> Result<ResourceDraft, AllocError>
    requires { All (IsTypeKnown types.now) (uses_of resource.now) }
    ensures { IfOk result (IsResourceDraft (programs_in types.now) resource.now) }
{
    let tasks = tasks_of(alloc, resource)?;
    let drafts = draft_tasks(alloc, types, resource, tasks.as_slice())?;
    let name = resource.name.try_text(alloc)?;
    Ok(ResourceDraft::new(name, drafts))
}

/// The drafts of resources.
pub fn draft_resources(
    alloc: Global,
    types: &[ProgramType],
    resources: &[Resource],
) -> Result<Vec<ResourceDraft>, AllocError>
    requires { All (IsTypeKnown types.now) (flat_map uses_of resources.now) }
    ensures { IfOk result (λ ds. AllZip (IsResourceDraft (programs_in types.now)) resources.now ds.items) }
{
    let mut drafts = Vec::new(alloc);
    for resource in resources {
        drafts.push(draft_resource(alloc, types, resource)?)?;
    }
    Ok(drafts)
}
