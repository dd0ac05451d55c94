ghost use Rattle.power_flow.specs.LadderValue.{Fits};
ghost use Rattle.evaluation.specs.States.{AreStatesOf};
ghost use Rattle.evaluation.specs.Meaning.{IsScanned, AllScanned};

use power_flow::{Ladder, State};
use task_codes::TaskCode;

/// Scans one program, dt milliseconds after the scan before.
fn scan_program(ladder: &Ladder, state: &mut State, dt: u32)
    requires { Fits ladder.now state.old }
    ensures scanned { IsScanned ladder.now dt state.old state.new }
    ensures fits { Fits ladder.now state.new }
{
    // The getter hands out that the boxes are wide, as the meaning of a scan wants it.
    let _declarations = ladder.declarations();
    ladder.scan(state, dt);
}

/// Scans all programs in order of declaration, dt milliseconds after the evaluation before.
pub fn scan_programs(code: &TaskCode, states: &mut [State], dt: u32)
    requires { AreStatesOf code.now states.old }
    ensures scanned { AllScanned code.now dt states.old states.new }
    ensures fits { AreStatesOf code.now states.new }
{
    for i in 0..code.programs() {
        if let Some(ladder) = code.ladder(i) {
            scan_program(ladder, &mut states[i], dt);
        }
    }
}
