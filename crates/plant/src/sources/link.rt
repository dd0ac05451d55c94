//! The codes of tasks: their drafts with each source resolved.

ghost use Rattle.std.specs.Prelude.{◌≡◌, ◌<◌, ◌∷◌, ◌++◌, [], List, IfOk, OnOk, All, length, map};
ghost use Rattle.std.specs.List.{AllZip};
ghost use Rattle.plant_grammar.specs.declared.grammar.tree.Program.{Program};
ghost use Rattle.task_codes.specs.CodeValue.{lists_of};
ghost use Rattle.plant.specs.StandsFor.{task_value};
ghost use Rattle.plant.specs.Steps.Drafts.{seen, drafted, Triples, IsResourceDraft, IsReady, IsOnceBound, IsCodeLinked, IsResourceLinked, AreResourcesLinked};
ghost use Rattle.plant.specs.Steps.FedUses.{fed_in, runs_in_fed, AreRunsFed, AreTasksFed, AreTasksLinked, IsResourceFed};

use crate::plant_resource::PlantResource;
use crate::sources::draft::tasks_of;
use crate::sources::fed_use::FedUse;
use crate::sources::producers::{bindings_of, expected_of, producers_of};
use crate::sources::resource_draft::ResourceDraft;
use crate::sources::retained::retained_of;
use crate::sources::task_draft::TaskDraft;
use crate::task::Task;
use plant_grammar::{Resource, TaskLine};
use std::alloc::{AllocError, Global};
use std::sync::Arc;
use task_codes::{ProgramInstance, TaskCode};

/// Copies of programs, which share their ladders.
fn copies(alloc: Global, programs: &[ProgramInstance]) -> Result<Vec<ProgramInstance>, AllocError>
    ensures { IfOk result (λ ps. ps.items ≡ programs.now) }
{
    let mut copies = Vec::new(alloc);
    for program in programs {
        let copy = program.try_copy(alloc)?;
        copies.push(copy)?;
    }
    Ok(copies)
}

/// The code of a task whose programs are those of the instances.
fn link_runs(
    alloc: Global,
    drafts: &[ResourceDraft],
    draft: &TaskDraft,
    fed: &[&FedUse<'_>],
) -> Result<TaskCode, AllocError>
    requires once { All IsOnceBound (runs_in_fed (seen fed.now)) }
    requires fed { AreRunsFed (drafted drafts.now) draft.now.programs (seen fed.now) }
    ensures { IfOk result (IsCodeLinked (drafted drafts.now) (runs_in_fed (seen fed.now)) draft.now) }
{
    let producers = producers_of(alloc, fed)?;
    let expected = expected_of(alloc, drafts, producers.as_slice())?;
    let bindings = bindings_of(alloc, producers.as_slice(), fed)?;
    let programs = copies(alloc, draft.programs())?;
    let outputs = Vec::from_slice(alloc, draft.outputs())?;
    let retained = retained_of(alloc, draft.programs())?;
    Ok(TaskCode::new(programs, bindings, producers, expected, outputs, retained))
}

/// Adds an instance if a task runs it.
fn push_fed<'a, 'b>(
    runs: &mut Vec<&'a FedUse<'b>>,
    task: &TaskLine,
    run: &'a FedUse<'b>,
) -> Result<(), AllocError>
    ensures { OnOk result (seen runs.new.items ≡ seen runs.old.items ++ fed_in task.now (run.now ∷ [])) }
{
    if !run.task().is_same(&task.name) {
        return Ok(());
    }
    runs.push(run)?;
    Ok(())
}

/// Those of the instances that a task runs.
fn fed_in<'a, 'b>(
    alloc: Global,
    fed: &'a [FedUse<'b>],
    task: &TaskLine,
) -> Result<Vec<&'a FedUse<'b>>, AllocError>
    ensures { IfOk result (λ us. seen us.items ≡ fed_in task.now fed.now) }
{
    let mut runs = Vec::new(alloc);
    for run in fed {
        push_fed(&mut runs, task, run)?;
    }
    Ok(runs)
}

/// The code of a task of a resource with these instances.
fn link_task(
    alloc: Global,
    drafts: &[ResourceDraft],
    fed: &[FedUse<'_>],
    task: &TaskLine,
    draft: &TaskDraft,
) -> Result<Arc<TaskCode>, AllocError>
    requires once { All IsOnceBound (runs_in_fed fed.now) }
    requires fed { AreRunsFed (drafted drafts.now) draft.now.programs (fed_in task.now fed.now) }
    ensures { IfOk result (λ c. IsCodeLinked (drafted drafts.now) (runs_in_fed (fed_in task.now fed.now)) draft.now c.value) }
{
    let runs = fed_in(alloc, fed, task)?;
    let code = link_runs(alloc, drafts, draft, runs.as_slice())?;
    let shared = Arc::new(alloc, code)?;
    Ok(shared)
}

/// The codes of tasks of a resource with these instances.
fn link_tasks(
    alloc: Global,
    drafts: &[ResourceDraft],
    fed: &[FedUse<'_>],
    tasks: &[&TaskLine],
    task_drafts: &[TaskDraft],
) -> Result<Vec<Arc<TaskCode>>, AllocError>
    requires many { length tasks.now ≡ length task_drafts.now }
    requires once { All IsOnceBound (runs_in_fed fed.now) }
    requires fed { AreTasksFed (drafted drafts.now) (seen tasks.now) task_drafts.now fed.now }
    ensures many { IfOk result (λ cs. length cs.items ≡ length tasks.now) }
    ensures each { IfOk result (λ cs. AreTasksLinked drafts.now fed.now tasks.now task_drafts.now cs.items) }
{
    let mut codes = Vec::new(alloc);
    for (i, draft) in task_drafts.iter().enumerate() {
        let code = link_task(alloc, drafts, fed, tasks[i], draft)?;
        codes.push(code)?;
    }
    Ok(codes)
}

/// Tasks as they are declared.
fn declared_tasks(alloc: Global, lines: &[&TaskLine]) -> Result<Vec<Task>, AllocError>
    requires { All (λ t. 0 < t.interval) (seen lines.now) }
    ensures { IfOk result (λ ts. ts.items ≡ map task_value (seen lines.now)) }
{
    let mut tasks = Vec::new(alloc);
    for line in lines {
        let name = line.name.try_text(alloc)?;
        tasks.push(Task::new(name, line.interval, line.priority))?;
    }
    Ok(tasks)
}

/// A resource with the codes of its tasks.
fn link_resource(
    alloc: Global,
    drafts: &[ResourceDraft],
    resource: &Resource,
    fed: &[FedUse<'_>],
    draft: &ResourceDraft,
) -> Result<PlantResource, AllocError>
    requires known { (programs : List Program) × IsResourceDraft programs resource.now draft.now }
    requires ready { IsReady resource.now }
    requires fed { IsResourceFed (drafted drafts.now) resource.now draft.now fed.now }
    ensures { IfOk result (IsResourceLinked (drafted drafts.now) resource.now draft.now) }
{
    let lines = tasks_of(alloc, resource)?;
    let codes = link_tasks(alloc, drafts, fed, lines.as_slice(), draft.tasks())?;
    let tasks = declared_tasks(alloc, lines.as_slice())?;
    let name = resource.name.try_text(alloc)?;
    Ok(PlantResource::new(name, tasks, codes))
}

/// The resources of a plant with the codes of their tasks.
pub fn link_resources(
    alloc: Global,
    drafts: &[ResourceDraft],
    resources: &[Resource],
    fed: &[Vec<FedUse<'_>>],
) -> Result<Vec<PlantResource>, AllocError>
    requires known { (programs : List Program) × AllZip (IsResourceDraft programs) resources.now drafts.now }
    requires ready { All IsReady resources.now }
    requires many { length fed.now ≡ length resources.now }
    requires fed { Triples (IsResourceFed (drafted drafts.now)) resources.now drafts.now (lists_of fed.now) }
    ensures many { IfOk result (λ vs. length vs.items ≡ length resources.now) }
    ensures each { IfOk result (λ vs. AreResourcesLinked drafts.now resources.now vs.items) }
{
    let mut linked = Vec::new(alloc);
    for (i, draft) in drafts.iter().enumerate() {
        let resource = link_resource(alloc, drafts, &resources[i], &fed[i], draft)?;
        linked.push(resource)?;
    }
    Ok(linked)
}
