ghost use Rattle.std.specs.Prelude.{◌≡◌, ◌≢◌, All, IfOk, IfErr};
ghost use Rattle.plant.specs.Faults.{IsPlantFault};
ghost use Rattle.plant.specs.declared.plant_fault.PlantFaultKind.TheVariants.{Memory};
ghost use Rattle.plant.specs.Ladders.{IsLadderOf, HasLadder};
ghost use Rattle.plant.specs.BodyFaults.{IsBodyFault, IsFirstBodyFault};
ghost use Rattle.plant.specs.ProgramTypes.{AreDrawn};

use crate::plant_fault::PlantFault;
use crate::program_type::ProgramType;
use drawings::Drawing;
use ladder_text::ReadText;
use network::Graph;
use plant_grammar::ProgramText;
use power_flow::Ladder;
use std::alloc::Global;
use std::sync::Arc;

/// The greatest line on which a drawing may begin.
const LAST_LINE: u64 = 9_223_372_036_854_775_807;

/// The type of a program: the drawing is read, its networks are built, and its names are bound.
fn draw(alloc: Global, text: ProgramText) -> Result<ProgramType, PlantFault>
    ensures program { IfOk result (λ t. t.program ≡ text.program) }
    ensures ladder { IfOk result (λ t. IsLadderOf t.program t.ladder) }
    ensures fault { IfErr result (λ fault. fault.kind ≢ Memory → IsBodyFault text fault) }
    ensures value { IfErr result IsPlantFault }
{
    let (program, line, declarations) = text.into_parts();
    let first_line = line.clamp(1, LAST_LINE);
    let drawing = Drawing::read(alloc, program.body.as_str(), first_line)?;
    let graph = Graph::build(alloc, &drawing)?;
    let ladder = Ladder::bind(alloc, graph, declarations)?;
    Ok(ProgramType::new(program, Arc::new(alloc, ladder)?))
}

/// The types of these programs. The first fault is answered, and none where each body has a ladder.
pub(crate) fn draw_all(
    alloc: Global,
    texts: Vec<ProgramText>,
) -> Result<Vec<ProgramType>, PlantFault>
    ensures ok { IfOk result (λ types. AreDrawn texts.items types.items) }
    ensures fault { IfErr result (λ fault. fault.kind ≢ Memory → IsFirstBodyFault texts.items fault) }
    ensures refused { IfErr result (λ fault. fault.kind ≢ Memory → All (λ t. HasLadder t.program) texts.items → ⊥) }
    ensures value { IfErr result IsPlantFault }
{
    let mut types = Vec::new(alloc);
    for text in texts {
        types.push(draw(alloc, text)?)?;
    }
    Ok(types)
}
