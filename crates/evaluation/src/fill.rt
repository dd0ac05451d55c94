ghost use Rattle.std.specs.Prelude.{◌≡◌};
ghost use Rattle.power_flow.specs.LadderValue.{LadderValue, Fits};
ghost use Rattle.task_codes.specs.CodeValue.{AreOnce, IsSoundCode};
ghost use Rattle.task_codes.specs.declared.binding.Binding.{Binding};
ghost use Rattle.evaluation.specs.Takes.{AreTakesOf};
ghost use Rattle.evaluation.specs.States.{AreStatesOf};
ghost use Rattle.evaluation.specs.Meaning.{given, IsFilled, AllFilled};
ghost use Rattle.evaluation.specs.Steps.Filling.{AreReady};

use crate::inputs::Inputs;
use crate::take::Take;
use power_flow::State;
use std_blocks::Value;
use task_codes::{Binding, Source, TaskCode};

/// What a source gives: the value of a field address, or of an output in the take from its producer.
fn given(inputs: &Inputs, takes: &[Take], source: Source) -> Option<Value>
    ensures { result ≡ given inputs.now takes.now source }
{
    match source {
        Source::Field(address) => Some(inputs.get(address)),
        Source::Given { producer, output } => match takes.get(producer) {
            Some(take) => take.image.values().get(output).copied(),
            None => None,
        },
    }
}

/// Fills the bound inputs of one program.
fn fill_program(inputs: &Inputs, takes: &[Take], bindings: &[Binding], state: &mut State)
    requires once { AreOnce bindings.now }
    requires ready { AreReady inputs.now takes.now bindings.now state.old.slots }
    ensures filled { IsFilled inputs.now takes.now bindings.now state.old state.new }
    ensures fits { (l : LadderValue) → Fits l state.old → Fits l state.new }
{
    for binding in bindings {
        if let Some(value) = given(inputs, takes, binding.source) {
            state.set(binding.place, value);
        }
    }
}

/// Fills all bound inputs of all programs.
pub fn fill_programs(code: &TaskCode, inputs: &Inputs, takes: &[Take], states: &mut [State])
    requires fits { AreStatesOf code.now states.old }
    requires suits { AreTakesOf code.now takes.now }
    ensures filled { AllFilled code.now inputs.now takes.now states.old states.new }
    ensures fits { AreStatesOf code.now states.new }
    ensures sound { IsSoundCode code.now }
{
    for i in 0..code.programs() {
        fill_program(inputs, takes, code.bindings(i), &mut states[i]);
    }
}
