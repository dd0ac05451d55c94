ghost use Rattle.std.specs.Prelude.{IfOk};
ghost use Rattle.plant.specs.Find.{Finds};
ghost use Rattle.console.specs.NodeWords.{NamesResource};

use crate::faults::print_word_refusal;
use crate::files::file_plant;
use crate::refusals::WordRefusal;
use crate::request::NodeRequest;
use plant::Plant;
use std::io;
use std::rt::Files;
use std::sync::Arc;
use world::resource_of;

/// What a node needs: the plant, and the place of its resource.
#[derive(Drop)]
pub struct PreparedNode {
    pub plant: Arc<Plant>,
    pub resource: usize,
}

/// The place of the resource of a name; None where the plant has none.
fn place_of(plant: &Plant, name: &str) -> Option<usize>
    ensures { Finds (NamesResource plant.now name.now) result }
{
    let place = resource_of(plant, name.as_bytes())?;
    if place < plant.resources() {
        Some(place)
    } else {
        None
    }
}

/// Reads the file of the plant, and finds the resource in it, or tells what is wrong; the status.
pub fn prepare_node<R: Files + Eprint + AllocGlobal>(
    rt: &R,
    request: &NodeRequest<'_>,
) -> io::Result<Result<PreparedNode, u8>>
    ensures { IfOk result (λ prepared. IfOk prepared (λ p. NamesResource p.plant.value request.now.resource.now p.resource)) }
{
    let plant = match file_plant(rt, request.plant)? {
        Ok(plant) => plant,
        Err(status) => return Ok(Err(status)),
    };
    match place_of(&plant, request.resource) {
        Some(resource) => Ok(Ok(PreparedNode { plant, resource })),
        None => {
            let refusal = WordRefusal::NoResource(request.resource);
            Ok(Err(print_word_refusal(rt, refusal)?))
        }
    }
}
