//! The outputs of programs, in the order of a task's image.

ghost use Rattle.std.specs.Prelude.{◌≡◌, ◌++◌, IfOk, OnOk};
ghost use Rattle.task_codes.specs.CodeValue.{outputs_of, outputs_in};
ghost use Rattle.plant.specs.Steps.Outputs.{output_placed, AddsOutput};

use declared_names::{Declarations, Declared};
use std::alloc::{AllocError, Global};
use task_codes::{ProgramInstance, TaskOutput};

/// Adds a variable if it is an output.
fn push_output(
    outputs: &mut Vec<TaskOutput>,
    program: usize,
    place: usize,
    declared: Declared,
) -> Result<(), AllocError>
    ensures { OnOk result (AddsOutput outputs.old.items outputs.new.items program place declared) }
{
    match declared {
        Declared::Output(kind) => {
            outputs.push(TaskOutput {
                program,
                place,
                kind,
            })?;
            Ok(())
        }
        _ => Ok(()),
    }
}

/// Adds the variable at a place if it is an output.
fn push_place(
    outputs: &mut Vec<TaskOutput>,
    program: usize,
    declarations: &Declarations,
    place: usize,
) -> Result<(), AllocError>
    ensures { OnOk result (outputs.new.items ≡ outputs.old.items ++ output_placed program declarations.now place) }
{
    match declarations.entry(place) {
        Some((_, declared)) => {
            push_output(outputs, program, place, declared)?;
            Ok(())
        }
        None => Ok(()),
    }
}

/// Adds the outputs of one program.
fn push_outputs(
    outputs: &mut Vec<TaskOutput>,
    program: usize,
    declarations: &Declarations,
) -> Result<(), AllocError>
    ensures { OnOk result (outputs.new.items ≡ outputs.old.items ++ outputs_in program declarations.now) }
{
    for place in 0..declarations.len() {
        push_place(outputs, program, declarations, place)?;
    }
    Ok(())
}

/// The outputs of programs: of one after the other, each in order of declaration.
pub fn outputs_of(
    alloc: Global,
    programs: &[ProgramInstance],
) -> Result<Vec<TaskOutput>, AllocError>
    ensures { IfOk result (λ os. os.items ≡ outputs_of programs.now) }
{
    let mut outputs = Vec::new(alloc);
    for (i, program) in programs.iter().enumerate() {
        push_outputs(&mut outputs, i, program.ladder().declarations())?;
    }
    Ok(outputs)
}
