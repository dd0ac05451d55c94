ghost use Rattle.std.specs.Prelude.{◌≡◌, IfOk};
ghost use Rattle.task_codes.specs.CodeValue.{IsSoundCode};
ghost use Rattle.evaluation.specs.Messages.{take_from, taken_of};
ghost use Rattle.exchange_core.specs.HeldMessages.{message_known};

use crate::known::Known;
use declared_names::Kind;
use evaluation::{Image, Take};
use std::alloc::{AllocError, Global};
use task_codes::{TaskCode, TaskRef};

/// The take from a producer: of what is known of it, else of nothing, with the initial image.
fn take_from(
    alloc: Global,
    table: &Known,
    producer: TaskRef,
    kinds: &[Kind],
) -> Result<Take, AllocError>
    ensures { IfOk result (λ take. take ≡ take_from producer kinds.now (message_known table.now producer)) }
{
    match table.message(producer) {
        None => Ok(Take {
            producer,
            from: None,
            image: Image::initial(alloc, kinds)?,
        }),
        Some(message) => {
            let name = message.name();
            Ok(Take {
                producer,
                from: Some((name.incarnation, name.number)),
                image: message.image().try_copy()?,
            })
        }
    }
}

/// One take for each producer of a code, in order.
pub fn takes_of(alloc: Global, table: &Known, code: &TaskCode) -> Result<Vec<Take>, AllocError>
    ensures value { IfOk result (λ takes. takes.items ≡ taken_of (message_known table.now) code.now) }
    ensures sound { IsSoundCode code.now }
{
    // The getter hands out that each producer has its kinds.
    let _programs = code.programs();
    let producers = code.producers();
    let mut takes = Vec::with_capacity(alloc, producers.len())?;
    for k in 0..producers.len() {
        let producer = producers[k];
        let take = take_from(alloc, table, producer, code.expected(k))?;
        takes.push(take)?;
    }
    Ok(takes)
}
