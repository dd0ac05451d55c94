ghost use Rattle.std.specs.Prelude.{IfOk, MatchResult};
ghost use Rattle.evaluation.specs.InputTexts.{IsRead};
ghost use Rattle.console.specs.FieldWords.{one_text_of};
ghost use Rattle.console.specs.Endings.{IsUnprepared};

use crate::faults::print_input_fault;
use crate::field_words::read_field_words;
use crate::files::file_plant;
use crate::request::RunRequest;
use evaluation::Inputs;
use plant::Plant;
use std::io;
use std::rt::Files;
use std::sync::Arc;

/// What a run of threads needs.
#[derive(Drop)]
pub struct Prepared {
    pub plant: Arc<Plant>,
    pub inputs: Inputs,
}

/// Reads the words of a run and then the file of its plant, or tells what is wrong; the status.
pub fn prepare<R: Files + Eprint + AllocGlobal>(
    rt: &R,
    request: &RunRequest<'_>,
) -> io::Result<Result<Prepared, u8>>
    ensures { IfOk result (λ prepared. MatchResult prepared
        (λ p. IsRead (one_text_of request.now.words.items) p.inputs)
        (IsUnprepared request.now)) }
{
    let inputs = match read_field_words(rt.alloc(), &request.words) {
        Ok(inputs) => inputs,
        Err(fault) => return Ok(Err(print_input_fault(rt, &request.words, fault)?)),
    };
    Ok(match file_plant(rt, request.plant)? {
        Ok(plant) => Ok(Prepared { plant, inputs }),
        Err(status) => Err(status),
    })
}
