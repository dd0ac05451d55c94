//! Runs that were found, done scan by scan.

ghost use Rattle.std.specs.Prelude.{IfOk, IsTrue};
ghost use Rattle.certified_claims.specs.Certified.{Sets};

use std::alloc::{AllocError, Global};
use verifying::{Row, Setup, is_on};

/// Whether the run of these rows sets the variable at a place.
pub(crate) fn sets(
    alloc: Global,
    setup: &Setup,
    place: usize,
    rows: &[Row],
) -> Result<bool, AllocError>
    ensures { IfOk result (λ yes. IsTrue yes → Sets setup.now place rows.now) }
{
    let mut state = setup.begin(alloc)?;
    for row in rows {
        if row.len() != setup.width() {
            return Ok(false);
        }
        setup.step(alloc, row, &mut state)?;
        if !setup.meets(&state) {
            return Ok(false);
        }
    }
    Ok(is_on(&state, place))
}

/// The same as rows of inputs.
pub(crate) fn rows_of(alloc: Global, found: Vec<Vec<bool>>) -> Result<Vec<Row>, AllocError> {
    let mut rows = Vec::new(alloc);
    for values in found {
        rows.push(Row::new(values))?;
    }
    Ok(rows)
}
