ghost use Rattle.std.specs.Prelude.{◌≡◌, ◌<◌, ◌^◌, length, sum_by};
ghost use Rattle.std.specs.Option.{option_map_or};
ghost use Rattle.plant.specs.PlantValue.{IsSoundPlant, codes_at, code_at};
ghost use Rattle.task_codes.specs.CodeValue.{CodeValue};
ghost use Rattle.plant.specs.Counts.{task_count, instances_of, program_count, connections_of, connection_count};

use plant::Plant;
use task_codes::{TaskCode, TaskRef};

/// How many tasks a plant has.
pub fn count_tasks(plant: &Plant) -> usize
    requires { task_count plant.now < 2 ^ 64 }
    ensures { result ≡ task_count plant.now }
{
    let mut count = 0;
    for resource in 0..plant.resources() {
        count += plant.tasks(resource).len();
    }
    count
}

/// How many program instances a task runs.
fn programs_at(plant: &Plant, task: TaskRef) -> usize
    ensures { result ≡ option_map_or (λ (c : CodeValue). length c.programs) (code_at plant.now task) 0 }
{
    match plant.code(task) {
        Some(code) => code.programs(),
        None => 0,
    }
}

/// How many program instances the tasks of a resource run.
fn instances_of(plant: &Plant, resource: usize) -> usize
    requires sound { IsSoundPlant plant.now }
    requires few { instances_of (codes_at plant.now resource) < 2 ^ 64 }
    ensures { result ≡ instances_of (codes_at plant.now resource) }
{
    let mut count = 0;
    for task in 0..plant.tasks(resource).len() {
        count += programs_at(plant, TaskRef { resource, task });
    }
    count
}

/// How many program instances a plant has.
pub fn count_programs(plant: &Plant) -> usize
    requires { program_count plant.now < 2 ^ 64 }
    ensures { result ≡ program_count plant.now }
{
    let mut count = 0;
    for resource in 0..plant.resources() {
        count += instances_of(plant, resource);
    }
    count
}

/// How many inputs of a task's programs are bound.
fn bindings_in(code: &TaskCode) -> usize
    requires { sum_by length code.now.bindings < 2 ^ 64 }
    ensures { result ≡ sum_by length code.now.bindings }
{
    let mut count = 0;
    for program in 0..code.programs() {
        count += code.bindings(program).len();
    }
    count
}

/// How many inputs of a task's programs are bound; none where there is no such task.
fn connections_at(plant: &Plant, task: TaskRef) -> usize
    requires { option_map_or (λ (c : CodeValue). sum_by length c.bindings) (code_at plant.now task) 0 < 2 ^ 64 }
    ensures { result ≡ option_map_or (λ (c : CodeValue). sum_by length c.bindings) (code_at plant.now task) 0 }
{
    match plant.code(task) {
        Some(code) => bindings_in(code),
        None => 0,
    }
}

/// How many inputs of a resource's programs are bound.
fn connections_of(plant: &Plant, resource: usize) -> usize
    requires sound { IsSoundPlant plant.now }
    requires few { connections_of (codes_at plant.now resource) < 2 ^ 64 }
    ensures { result ≡ connections_of (codes_at plant.now resource) }
{
    let mut count = 0;
    for task in 0..plant.tasks(resource).len() {
        count += connections_at(plant, TaskRef { resource, task });
    }
    count
}

/// How many inputs of a plant's programs are bound.
pub fn count_connections(plant: &Plant) -> usize
    requires { connection_count plant.now < 2 ^ 64 }
    ensures { result ≡ connection_count plant.now }
{
    let mut count = 0;
    for resource in 0..plant.resources() {
        count += connections_of(plant, resource);
    }
    count
}
