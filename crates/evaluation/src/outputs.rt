ghost use Rattle.std.specs.Prelude.{◌≡◌, IfOk, map};
ghost use Rattle.declared_names.specs.Kinds.{kind_of};
ghost use Rattle.task_codes.specs.CodeValue.{image_kinds, IsSoundCode};
ghost use Rattle.evaluation.specs.States.{AreStatesOf};
ghost use Rattle.evaluation.specs.Meaning.{output_value, AreOutputs};

use crate::image::Image;
use power_flow::State;
use std::alloc::{AllocError, Global};
use std_blocks::Value;
use task_codes::{TaskCode, TaskOutput};

/// The value of an output.
fn output_value(states: &[State], output: TaskOutput) -> Option<Value>
    ensures { result ≡ output_value states.now output }
{
    match states.get(output.program) {
        Some(state) => state.get(output.place),
        None => None,
    }
}

/// The values of all outputs, programs and outputs in order of declaration.
pub fn read_outputs(alloc: Global, code: &TaskCode, states: &[State]) -> Result<Image, AllocError>
    requires sound { IsSoundCode code.now }
    requires fits { AreStatesOf code.now states.now }
    ensures read { IfOk result (λ image. AreOutputs code.now states.now image) }
    ensures kinds { IfOk result (λ image. map kind_of image ≡ image_kinds code.now) }
{
    let mut values = Vec::with_capacity(alloc, code.outputs())?;
    for k in 0..code.outputs() {
        if let Some(output) = code.output(k) {
            if let Some(value) = output_value(states, output) {
                values.push(value)?;
            }
        }
    }
    Ok(Image::of(values))
}
