//! What stands under a name: instances and their outputs.

ghost use Rattle.std.specs.Prelude.{◌≡◌, ◌↔◌, IsTrue, AllPairs};
ghost use Rattle.plant.specs.Steps.Drafts.{IsInstanceAt, IsPlacedAt, IsOutputAt};
ghost use Rattle.plant.specs.Steps.Found.{FindsBoth};
ghost use Rattle.plant.specs.Steps.Outputs.{StandsBefore, IsEarlierOutput};

use crate::named::find_named;
use crate::sources::task_draft::TaskDraft;
use declared_names::Kind;
use task_codes::TaskOutput;

/// The positions of the task that runs the instance of a name, and of its program there.
pub fn find_instance(tasks: &[TaskDraft], name: &str) -> Option<(usize, usize)>
    ensures { FindsBoth (IsInstanceAt tasks.now name.now) result }
{
    for (k, task) in tasks.iter().enumerate() {
        if let Some(program) = find_named(task.programs(), name) {
            return Some((k, program));
        }
    }
    None
}

/// Whether an output is of an earlier program, or of this one at an earlier place.
fn stands_before(output: TaskOutput, program: usize, place: usize) -> bool
    ensures { IsTrue result ↔ StandsBefore output program place }
{
    output.program < program || output.program == program && output.place < place
}

/// Whether an output is of this program, at this place.
fn stands_at(output: TaskOutput, program: usize, place: usize) -> bool
    ensures { IsTrue result ↔ ((output.program ≡ program) × (output.place ≡ place)) }
{
    output.program == program && output.place == place
}

/// The position of the output of a program at a place, and its kind. Outputs stand in order of program and place, so that halving finds it.
fn output_position(outputs: &[TaskOutput], program: usize, place: usize) -> Option<(usize, Kind)>
    requires { AllPairs IsEarlierOutput outputs.now }
    ensures { FindsBoth (IsPlacedAt outputs.now program place) result }
{
    let mut low = 0;
    let mut high = outputs.len();
    'halving: while low < high {
        let middle = low + (high - low) / 2;
        let output = outputs[middle];
        if stands_at(output, program, place) {
            return Some((middle, output.kind));
        }
        if stands_before(output, program, place) {
            low = middle + 1;
        } else {
            high = middle;
        }
    }
    None
}

/// The position in a task's image of the output that a name means in a program, and its kind. `None`: it means none.
pub fn find_output(task: &TaskDraft, program: usize, name: &str) -> Option<(usize, Kind)>
    ensures { FindsBoth (IsOutputAt task.now program name.now) result }
{
    let owner = task.programs().get(program)?;
    let place = owner.ladder().declarations().position(name)?;
    output_position(task.outputs(), program, place)
}
