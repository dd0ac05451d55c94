//! The line of a restart, such as `RESTART R1 2`.

ghost use Rattle.std.specs.Prelude.{IfOk, MatchOption};
ghost use Rattle.audit.specs.JournalLines.{IsNoRestart, IsRestart};

use crate::beginnings::behind_resource;
use crate::notes::is_note_of;
use live_node::note_of_restart;
use plant::Plant;
use std::alloc::{AllocError, Global};
use text_lines::number_of;

/// In which incarnation a resource restarted, where the line tells it.
#[tactic(auto, using(crate::proofs::Restarts::not_begun, crate::proofs::Restarts::no_number, crate::proofs::Restarts::another))]
pub(crate) fn read_restart(
    alloc: Global,
    plant: &Plant,
    resource: usize,
    line: &[u8],
) -> Result<Option<u32>, AllocError>
    ensures { IfOk result (λ found. MatchOption found (IsNoRestart plant.now resource line.now) (IsRestart plant.now resource line.now)) }
{
    let Some(digits) = behind_resource(line, b"RESTART ", plant, resource) else {
        return Ok(None);
    };
    let Some(incarnation) = number_of(digits) else {
        return Ok(None);
    };
    let note = note_of_restart(alloc, plant, resource, incarnation)?;
    if is_note_of(alloc, b"", line, note.as_bytes())? {
        Ok(Some(incarnation))
    } else {
        Ok(None)
    }
}
