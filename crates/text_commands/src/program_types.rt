//! The program type of a name in the text of a plant.

ghost use Rattle.std.specs.Prelude.{IfOk, IfErr};
ghost use Rattle.plant.specs.ProgramText.{IsProgramOfText};
ghost use Rattle.text_commands.specs.CheckText.{GivesNoPlant};
ghost use Rattle.text_commands.specs.Sources.{HoldsOfPlant};
ghost use Rattle.text_commands.specs.Steps.PlantRefusing.{GivesNoPlantOfText};

use crate::comments::without_comments;
use crate::text_command_fault::TextCommandFault;
use plant::ProgramType;
use std::alloc::Global;

/// The program type of a name in the text of a plant as it stands, if there is one.
fn program_of_text(
    alloc: Global,
    text: &str,
    name: &str,
) -> Result<Option<ProgramType>, TextCommandFault>
    ensures ok { IfOk result (IsProgramOfText text.now name.now) }
    ensures err { IfErr result (GivesNoPlantOfText text.now) }
{
    Ok(plant::read_program(alloc, text, name)?)
}

/// The program type of a name, in whatever case, in the text of a plant, which is read as
/// [`read_plant`](crate::read_plant) does. None where the plant has no such type.
pub fn read_program(
    alloc: Global,
    text: &str,
    name: &str,
) -> Result<Option<ProgramType>, TextCommandFault>
    ensures ok { IfOk result (λ found. HoldsOfPlant (λ t. IsProgramOfText t name.now found) text.now) }
    ensures err { IfErr result (GivesNoPlant text.now) }
{
    match program_of_text(alloc, text, name) {
        Err(TextCommandFault::Text(_)) => {
            let text = without_comments(alloc, text)?;
            program_of_text(alloc, text.as_str(), name)
        }
        read => read,
    }
}
