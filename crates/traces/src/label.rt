ghost use Rattle.std.specs.Prelude.{◌≡◌, IfOk, string_bytes};
ghost use Rattle.traces.specs.Diagram.{label_of};

use crate::track::Track;
use std::alloc::{AllocError, Global};

/// The name of a variable, as `R1.A.N` behind those of its resource and its program.
pub fn label_of(alloc: Global, track: &Track) -> Result<String, AllocError>
    ensures { IfOk result (λ label. string_bytes label ≡ label_of track.now) }
{
    let mut label = String::new(alloc);
    if let Some(scope) = track.scope() {
        label.push_str(scope.resource())?;
        label.push_str(".")?;
        label.push_str(scope.program())?;
        label.push_str(".")?;
    }
    label.push_str(track.name())?;
    Ok(label)
}
