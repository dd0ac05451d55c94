//! The event that a line spells.

ghost use Rattle.std.specs.Prelude.{◌≡◌, ◌≢◌, ℕ, IfOk, IfErr};
ghost use Rattle.plant.specs.Find.{Finds};
ghost use Rattle.world.specs.declared.line_fault.LineFault.TheVariants.{Syntax, Write};
ghost use Rattle.world.specs.ScheduleText.{SpellsEvaluate, SpellsDeliver, SpellsRestart, SpellsHear, SpellsEvent, SpellsNoEvent};
ghost use Rattle.world.specs.Steps.ReadingLines.{texts, keyword_of, SpellsNoEvaluate};

use crate::event::Event;
use crate::line_fault::LineFault;
use crate::names::{resource_of, task_of};
use evaluation::Inputs;
use plant::Plant;
use std::alloc::Global;
use task_codes::TaskRef;
use words::number_up_to;

/// The word that a line of an event begins with.
#[derive(Clone, Copy)]
enum Keyword {
    Evaluate,
    Deliver,
    Restart,
    Hear,
}

/// The keyword that a word is, in either case.
#[tactic(auto, unfolding(crate::specs::Steps::ReadingLines::keyword_of))]
fn keyword_of(word: &[u8]) -> Option<Keyword>
    ensures { result ≡ keyword_of word.now }
{
    if word.eq_ignore_ascii_case(b"EVAL") {
        Some(Keyword::Evaluate)
    } else if word.eq_ignore_ascii_case(b"DELIVER") {
        Some(Keyword::Deliver)
    } else if word.eq_ignore_ascii_case(b"RESTART") {
        Some(Keyword::Restart)
    } else if word.eq_ignore_ascii_case(b"HEAR") {
        Some(Keyword::Hear)
    } else {
        None
    }
}

/// The task, elapsed time and field inputs that the words behind `EVAL` spell.
fn read_evaluate(
    alloc: Global,
    plant: &Plant,
    words: &[&[u8]],
) -> Result<(TaskRef, u32, Inputs), LineFault>
    ensures ok { IfOk result (λ r. SpellsEvaluate plant.now r.0 r.1 r.2 (texts words.now)) }
    ensures early { IfErr result (λ f. f ≢ Write) }
    ensures fault { IfErr result (λ f. f ≡ Syntax → SpellsNoEvaluate plant.now (texts words.now)) }
{
    let [task, dt, inputs @ ..] = words else {
        return Err(LineFault::Syntax);
    };
    let Some(task) = task_of(plant, task) else {
        return Err(LineFault::Syntax);
    };
    let Some(dt) = number_up_to(dt, 4_294_967_295) else {
        return Err(LineFault::Syntax);
    };
    let inputs = Inputs::of_words(alloc, inputs)?;
    Ok((task, dt as u32, inputs))
}

/// The message and the resource that the words behind `DELIVER` spell.
fn read_deliver(plant: &Plant, words: &[&[u8]]) -> Option<(u64, usize)>
    ensures { Finds (λ (d : ℕ × ℕ). SpellsDeliver plant.now d.0 d.1 (texts words.now)) result }
{
    let [message, resource] = words else {
        return None;
    };
    let message = number_up_to(message, u64::MAX)?;
    let resource = resource_of(plant, resource)?;
    Some((message, resource))
}

/// The resource that the words behind `RESTART` spell.
fn read_restart(plant: &Plant, words: &[&[u8]]) -> Option<usize>
    ensures { Finds (λ n. SpellsRestart plant.now n (texts words.now)) result }
{
    let [resource] = words else {
        return None;
    };
    resource_of(plant, resource)
}

/// The resource, the one of which it hears, and the incarnation that the words behind `HEAR` spell.
fn read_hear(plant: &Plant, words: &[&[u8]]) -> Option<(usize, usize, u32)>
    ensures { Finds (λ (h : ℕ × ℕ × ℕ). SpellsHear plant.now h.0 h.1 h.2 (texts words.now)) result }
{
    let [resource, of, incarnation] = words else {
        return None;
    };
    let resource = resource_of(plant, resource)?;
    let of = resource_of(plant, of)?;
    let incarnation = number_up_to(incarnation, 4_294_967_295)?;
    Some((resource, of, incarnation as u32))
}

/// The event that the words of a line spell; an evaluation has this ticket.
pub fn read_event(
    alloc: Global,
    plant: &Plant,
    ticket: u64,
    words: &[&[u8]],
) -> Result<Event, LineFault>
    ensures ok { IfOk result (λ e. SpellsEvent plant.now ticket e (texts words.now)) }
    ensures early { IfErr result (λ f. f ≢ Write) }
    ensures fault { IfErr result (λ f. f ≡ Syntax → SpellsNoEvent plant.now ticket (texts words.now)) }
{
    let [first, behind @ ..] = words else {
        return Err(LineFault::Syntax);
    };
    match keyword_of(first) {
        None => Err(LineFault::Syntax),
        Some(Keyword::Evaluate) => {
            let (task, dt, inputs) = read_evaluate(alloc, plant, behind)?;
            Ok(Event::Evaluate {
                ticket,
                task,
                dt,
                inputs,
            })
        }
        Some(Keyword::Deliver) => match read_deliver(plant, behind) {
            Some((message, resource)) => Ok(Event::Deliver { message, resource }),
            None => Err(LineFault::Syntax),
        },
        Some(Keyword::Restart) => match read_restart(plant, behind) {
            Some(resource) => Ok(Event::Restart { resource }),
            None => Err(LineFault::Syntax),
        },
        Some(Keyword::Hear) => match read_hear(plant, behind) {
            Some((resource, of, incarnation)) => Ok(Event::Hear {
                resource,
                of,
                incarnation,
            }),
            None => Err(LineFault::Syntax),
        },
    }
}
