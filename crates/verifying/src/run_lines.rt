//! The lines of a run.

ghost use Rattle.std.specs.Prelude.{◌≡◌, ◌++◌, ℕ, List, OnOk, IfOk, All, length, string_bytes};
ghost use Rattle.power_flow.specs.Meaning.{Moment};
ghost use Rattle.verifying.specs.VerdictLines.{RunLines};
ghost use Rattle.verifying.specs.Steps.Adding.{AreWholeRows};

use crate::row::Row;
use crate::setup::Setup;
use std::alloc::{AllocError, Global};
use text_commands::state_line;

/// The lines of the run of these rows: the variables after each scan.
pub(crate) fn run_lines(alloc: Global, setup: &Setup, rows: &[Row]) -> Result<String, AllocError>
    requires { AreWholeRows setup.now rows.now }
    ensures { IfOk result (λ text. (last : Moment) × RunLines setup.now rows.now last (string_bytes text)) }
{
    let mut text = String::new(alloc);
    let mut state = setup.begin(alloc)?;
    for row in rows {
        setup.step(alloc, row, &mut state)?;
        let line = state_line(alloc, setup.ladder().declarations(), &state)?;
        text.push_str(line.as_str())?;
    }
    Ok(text)
}
