//! The places of named resources and tasks.

ghost use Rattle.std.specs.Prelude.{◌≡◌, ◌<◌, ◌==◌, IfSome, Some, length, position, slice_get};
ghost use Rattle.words.specs.Chars.{same_word};
ghost use Rattle.plant.specs.Find.{Finds};
ghost use Rattle.plant.specs.PlantValue.{ResourceValue, TaskValue};
ghost use Rattle.world.specs.ScheduleText.{resource_named, task_in, IsTaskWord, IsResourceWord};

use plant::{Plant, Task};
use task_codes::TaskRef;
use words::is_plain_name;

/// Whether the resource at a place has this name, whatever the case of the letters.
fn is_named(plant: &Plant, resource: usize, name: &[u8]) -> bool
    ensures { (r : ResourceValue) → slice_get plant.now.resources resource ≡ Some r
        → result ≡ same_word name.now r.name }
{
    match plant.resource_name(resource) {
        Some(found) => name.eq_ignore_ascii_case(found.as_bytes()),
        None => false,
    }
}

/// Where a resource of this name stands, whatever the case of the letters. Without one it is the number of resources,
/// where none stands.
fn resource_named(plant: &Plant, name: &[u8]) -> usize
    ensures { result ≡ resource_named plant.now name.now }
{
    for k in 0..plant.resources() {
        if is_named(plant, k, name) {
            return k;
        }
    }
    plant.resources()
}

fn position_of(tasks: &[Task], name: &[u8]) -> Option<usize>
    ensures { result ≡ position (λ (t : TaskValue). same_word name.now t.name) tasks.now }
{
    tasks
        .iter()
        .position(|task| name.eq_ignore_ascii_case(task.name().as_bytes()))
}

/// Where a task of this name stands in a resource, whatever the case of the letters. Without one it is the number of
/// the resource's tasks, where none stands.
fn task_in(plant: &Plant, resource: usize, name: &[u8]) -> usize
    ensures { result ≡ task_in plant.now resource name.now }
{
    let tasks = plant.tasks(resource);
    match position_of(tasks, name) {
        Some(task) => task,
        None => tasks.len(),
    }
}

/// The resource that a word names. `None`: the word is no identifier, or it is reserved.
pub fn resource_of(plant: &Plant, word: &[u8]) -> Option<usize>
    ensures { Finds (IsResourceWord plant.now word.now) result }
{
    if is_plain_name(word) {
        Some(resource_named(plant, word))
    } else {
        None
    }
}

fn dot_in(word: &[u8]) -> Option<usize>
    ensures value { result ≡ position (λ c. c == 46) word.now }
    ensures bound { IfSome result (λ i. i < length word.now) }
{
    word.iter().position(|c| *c == b'.')
}

/// The task that a word such as `R1.FAST` names. `None`: it isn't two identifiers that aren't reserved, with a dot
/// between them.
pub fn task_of(plant: &Plant, word: &[u8]) -> Option<TaskRef>
    ensures { Finds (IsTaskWord plant.now word.now) result }
{
    let dot = dot_in(word)?;
    let resource = resource_of(plant, &word[..dot])?;
    let name = &word[dot + 1..];
    if is_plain_name(name) {
        let task = task_in(plant, resource, name);
        Some(TaskRef { resource, task })
    } else {
        None
    }
}
