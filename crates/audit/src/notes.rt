//! Lines as they were noted.

ghost use Rattle.std.specs.Prelude.{◌≡◌, ◌++◌, ◌↔◌, IfOk, IsTrue};
ghost use Rattle.live_node.specs.NodeJournal.{note_end};

use std::alloc::{AllocError, Global};
use text_lines::are_same;

/// Whether a note is a line with `;` and a line feed behind it, and this before it.
pub(crate) fn is_note_of(
    alloc: Global,
    before: &[u8],
    line: &[u8],
    note: &[u8],
) -> Result<bool, AllocError>
    ensures { IfOk result (λ is. IsTrue is ↔ (before.now ++ line.now ++ note_end ≡ note.now)) }
{
    let mut noted = Vec::from_slice(alloc, before)?;
    noted.extend_from_slice(line)?;
    noted.extend_from_slice(b";\n")?;
    Ok(are_same(noted.as_slice(), note))
}
