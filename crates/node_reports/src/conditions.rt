ghost use Rattle.std.specs.Prelude.{◌↔◌, IsTrue};
ghost use Rattle.node_reports.specs.Commands.{AreNumbered, AreForPlant};

use crate::command::Command;
use plant::Plant;

/// Whether the tickets of the commands are 1, 2, 3 and so on.
pub fn are_numbered(commands: &[Command]) -> bool
    ensures { IsTrue result ↔ AreNumbered commands.now }
{
    for k in 0..commands.len() {
        if commands[k].ticket != k as u64 + 1 {
            return false;
        }
    }
    true
}

/// Whether the resources of the commands are resources of the plant.
pub fn are_for_plant(plant: &Plant, commands: &[Command]) -> bool
    ensures { IsTrue result ↔ AreForPlant plant.now commands.now }
{
    for k in 0..commands.len() {
        if commands[k].resource >= plant.resources() {
            return false;
        }
    }
    true
}
