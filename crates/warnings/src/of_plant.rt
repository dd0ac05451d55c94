//! The warnings of a plant's text.

ghost use Rattle.std.specs.Prelude.{IfOk, MatchOption};
ghost use Rattle.warnings.specs.OfPlant.{HasNoDrawing, HasNoDrawingIn, IsBodyWarned, AreBodiesWarned, AreWarningsOfTree, AreWarningsOfPlant, IsNoPlant};

use crate::far_address::{FarAddress, far_addresses};
use crate::of_drawing::warnings_of_a_program;
use crate::of_text::networks_of;
use crate::scan_time::ScanTime;
use crate::unbound::{UnboundInput, unbound_inputs};
use crate::warning::Warning;
use plant_grammar::{GrammarFaultKind, ProgramText, Reader, Resource, read_tree};
use plant_text::{last_line, read_words};
use std::alloc::{AllocError, Global};

/// The greatest line on which a drawing may begin.
const LAST_LINE: u64 = 9_223_372_036_854_775_807;

/// What is warned of in a plant: in the drawings of its programs, one after the other, and at its instances.
#[derive(Debug, Drop)]
pub struct PlantWarnings {
    pub bodies: Vec<Warning>,
    pub unbound: Vec<UnboundInput>,
    pub far: Vec<FarAddress>,
}

/// The warnings of a program's drawing. `None`: it is no drawing, or one whose networks have a fault.
fn body_warnings(
    alloc: Global,
    time: ScanTime<'_>,
    text: ProgramText,
) -> Result<Option<Vec<Warning>>, AllocError>
    ensures { IfOk result (λ told. MatchOption told (HasNoDrawing text) (λ warnings. IsBodyWarned time.entry text warnings.items)) }
{
    let (program, line, declarations) = text.into_parts();
    let dt = time.within(program.name.as_str());
    let first_line = line.clamp(1, LAST_LINE);
    match networks_of(alloc, program.body.as_str(), first_line)? {
        Some(graph) => Ok(Some(warnings_of_a_program(alloc, dt, &graph, &declarations)?)),
        None => Ok(None),
    }
}

/// The warnings of the drawings of programs, one after the other. `None`: one is no drawing, or its networks have a fault.
fn bodies_warnings(
    alloc: Global,
    time: ScanTime<'_>,
    texts: Vec<ProgramText>,
) -> Result<Option<Vec<Warning>>, AllocError>
    ensures { IfOk result (λ told. MatchOption told (HasNoDrawingIn texts.items) (λ warnings. AreBodiesWarned time.entry texts.items warnings.items)) }
{
    let mut warnings = Vec::new(alloc);
    for text in texts {
        match body_warnings(alloc, time, text)? {
            Some(mut more) => warnings.append(&mut more)?,
            None => return Ok(None),
        }
    }
    Ok(Some(warnings))
}

/// The warnings of the programs and resources of a plant. `None`: a program has no drawing, or its networks have a fault.
fn tree_warnings(
    alloc: Global,
    time: ScanTime<'_>,
    texts: Vec<ProgramText>,
    resources: &[Resource],
) -> Result<Option<PlantWarnings>, AllocError>
    ensures { IfOk result (λ told. MatchOption told (HasNoDrawingIn texts.items) (AreWarningsOfTree time.entry texts.items resources.now)) }
{
    let unbound = unbound_inputs(alloc, &texts, resources)?;
    let far = far_addresses(alloc, resources)?;
    match bodies_warnings(alloc, time, texts)? {
        Some(bodies) => Ok(Some(PlantWarnings {
            bodies,
            unbound,
            far,
        })),
        None => Ok(None),
    }
}

/// What is warned of in a plant's text: in the drawing of each program, by line and then column, each coil that a later one
/// overwrites in the same evaluation, each place where a local variable is stored into that nothing reads and, where it is
/// judged by the time between evaluations, each duration of a timer that ends between two of them; each input that an instance
/// doesn't bind; and each that reads an address far from all others that its resource reads. `None`: the text isn't as the
/// grammar of plants has it, or a program's drawing is refused.
pub fn warnings_of_a_plant(
    alloc: Global,
    time: ScanTime<'_>,
    text: &str,
) -> Result<Option<PlantWarnings>, AllocError>
    ensures { IfOk result (λ told. MatchOption told (IsNoPlant text.now) (AreWarningsOfPlant time.entry text.now)) }
{
    let words = read_words(alloc, text)?;
    let mut reader = Reader::new(words.words(), last_line(text));
    let mut texts = Vec::new(alloc);
    match read_tree(alloc, &mut reader, &mut texts) {
        Ok(resources) => tree_warnings(alloc, time, texts, &resources),
        Err(fault) => match fault.kind {
            GrammarFaultKind::Memory => Err(AllocError),
            _ => Ok(None),
        },
    }
}
