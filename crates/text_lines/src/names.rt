ghost use Rattle.std.specs.Prelude.{◌≡◌, OnOk};
ghost use Rattle.text_lines.specs.Growing.{GrowsBy};
ghost use Rattle.text_lines.specs.LineParts.{resource_text, task_name, task_text};

use plant::Plant;
use std::alloc::AllocError;
use task_codes::TaskRef;

/// A resource's name as it was declared; empty where there is no such resource.
pub fn resource_name(plant: &Plant, resource: usize) -> &str
    ensures { result.now ≡ resource_text plant.now resource }
{
    match plant.resource_name(resource) {
        Some(name) => name,
        None => "",
    }
}

/// Writes a resource's name, as it was declared, behind a line.
pub fn push_resource(line: &mut String, plant: &Plant, resource: usize) -> Result<(), AllocError>
    ensures { OnOk result (GrowsBy line.old line.new (resource_text plant.now resource)) }
{
    line.push_str(resource_name(plant, resource))
}

/// A task's name as it was declared; empty where there is no such task.
pub(crate) fn task_name(plant: &Plant, task: TaskRef) -> &str
    ensures { result.now ≡ task_name plant.now task }
{
    match plant.tasks(task.resource).get(task.task) {
        Some(found) => found.name(),
        None => "",
    }
}

/// Writes a task, as `R1.FAST`, behind a line.
pub fn push_task(line: &mut String, plant: &Plant, task: TaskRef) -> Result<(), AllocError>
    ensures { OnOk result (GrowsBy line.old line.new (task_text plant.now task)) }
{
    push_resource(line, plant, task.resource)?;
    line.push_str(".")?;
    line.push_str(task_name(plant, task))
}
