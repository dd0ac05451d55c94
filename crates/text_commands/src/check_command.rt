ghost use Rattle.std.specs.Prelude.{◌≡◌, ◌<◌, ◌^◌, OnOk, IfOk, IfErr, string_bytes};
ghost use Rattle.plant.specs.PlantText.{IsPlantText};
ghost use Rattle.text_lines.specs.Growing.{GrowsBy};
ghost use Rattle.text_commands.specs.CheckText.{count_line, check_lines, GivesNoPlant, IsPlantOf, WritesCheck, ExplainsCheck};
ghost use Rattle.text_commands.specs.Steps.PlantRefusing.{GivesNoPlantOfText};
ghost use Rattle.plant.specs.Counts.{AreCounts};

use crate::comments::without_comments;
use crate::plant_counts::{count_connections, count_programs, count_tasks};
use crate::text_command_fault::TextCommandFault;
use plant::{Plant, counts_are_small};
use std::alloc::{AllocError, Global};
use std::fmt::Write as _;
use std::io::Write;
use text_lines::write_text;

/// Reads the text of a plant as it stands.
fn plant_of_text(alloc: Global, text: &str) -> Result<Plant, TextCommandFault>
    ensures ok { IfOk result (λ plant. IsPlantText text.now plant) }
    ensures err { IfErr result (GivesNoPlantOfText text.now) }
{
    Ok(Plant::read(alloc, text)?)
}

/// Reads the text of a plant. One that is none is read with its comments emptied: rows that begin with `(*` and end with
/// `*)`, so that drawings may have them too.
pub fn read_plant(alloc: Global, text: &str) -> Result<Plant, TextCommandFault>
    ensures ok { IfOk result (λ plant. IsPlantOf text.now plant) }
    ensures err { IfErr result (GivesNoPlant text.now) }
{
    match plant_of_text(alloc, text) {
        Err(TextCommandFault::Text(_)) => {
            let text = without_comments(alloc, text)?;
            plant_of_text(alloc, text.as_str())
        }
        read => read,
    }
}

fn push_count(text: &mut String, what: &str, count: usize) -> Result<(), AllocError>
    ensures { OnOk result (GrowsBy text.old text.new (count_line what.now count)) }
{
    write!(text, "{what} {count}\n")
}

/// Four lines: how many resources, tasks, program instances and bound inputs a plant has.
fn check_lines(alloc: Global, plant: &Plant) -> Result<String, AllocError>
    requires { AreCounts plant.now }
    ensures { IfOk result (λ text. string_bytes text ≡ check_lines plant.now) }
{
    let mut text = String::new(alloc);
    push_count(&mut text, "resources", plant.resources())?;
    push_count(&mut text, "tasks", count_tasks(plant))?;
    push_count(&mut text, "programs", count_programs(plant))?;
    push_count(&mut text, "connections", count_connections(plant))?;
    Ok(text)
}

/// Reads a plant, and writes how many resources, tasks, program instances and bound inputs it has, a line for each.
///
/// `Text` and `Memory` come before anything is written. After `Write` what went out is a prefix, and not all.
pub fn check<W: Write>(alloc: Global, plant: &str, writer: &mut W) -> Result<(), TextCommandFault>
    ensures ok { OnOk result (WritesCheck plant.now (W.contents writer.old) (W.contents writer.new)) }
    ensures fault { IfErr result (ExplainsCheck plant.now (W.contents writer.old) (W.contents writer.new)) }
{
    counts_are_small();
    let plant = read_plant(alloc, plant)?;
    let text = check_lines(alloc, &plant)?;
    Ok(write_text(writer, text.as_str())?)
}
