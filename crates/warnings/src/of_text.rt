//! The warnings of a text.

ghost use Rattle.std.specs.Prelude.{◌<◌, ◌≤◌, ◌^◌, IfOk, MatchOption};
ghost use Rattle.warnings.specs.OfText.{AreNetworksOf, HasNoNetworks, AreWarningsOf};

use crate::of_drawing::warnings_of_a_drawing;
use crate::warning::Warning;
use drawings::Drawing;
use ladder_text::{DrawFaultKind, ReadText};
use network::{Graph, GraphFaultKind};
use std::alloc::{AllocError, Global};

/// The networks of a text that begins on a line. `None`: it is no drawing, or one whose networks have a fault.
pub(crate) fn networks_of(
    alloc: Global,
    text: &str,
    first_line: u64,
) -> Result<Option<Graph>, AllocError>
    requires { (1 ≤ first_line) × (first_line < 2 ^ 63) }
    ensures { IfOk result (λ found. MatchOption found (HasNoNetworks first_line text.now) (AreNetworksOf first_line text.now)) }
{
    let drawing = match Drawing::read(alloc, text, first_line) {
        Ok(drawing) => drawing,
        Err(fault) => {
            return match fault.kind {
                DrawFaultKind::Memory => Err(AllocError),
                _ => Ok(None),
            };
        }
    };
    match Graph::build(alloc, &drawing) {
        Ok(graph) => Ok(Some(graph)),
        Err(fault) => match fault.kind {
            GraphFaultKind::Memory => Err(AllocError),
            _ => Ok(None),
        },
    }
}

/// What is warned of in a text that is a drawing, by line and then column, with `dt` milliseconds from each scan to the next, or
/// 0 where none are given. `None`: it is no drawing, or one whose networks have a fault.
pub fn warnings_of_a_text(
    alloc: Global,
    dt: u32,
    text: &str,
) -> Result<Option<Vec<Warning>>, AllocError>
    ensures { IfOk result (λ told. MatchOption told (HasNoNetworks 1 text.now) (λ warnings. AreWarningsOf dt text.now warnings.items)) }
{
    match networks_of(alloc, text, 1)? {
        Some(graph) => Ok(Some(warnings_of_a_drawing(alloc, dt, &graph)?)),
        None => Ok(None),
    }
}
