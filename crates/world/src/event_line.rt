//! The line that tells an event.

ghost use Rattle.std.specs.Prelude.{OnOk, string_bytes};
ghost use Rattle.std.specs.Option.{option_map};
ghost use Rattle.text_lines.specs.Growing.{GrowsBy};
ghost use Rattle.world.specs.RunText.{accepted_text, refusal_text, delivery_line, restart_line, hear_line, refused_line};
ghost use Rattle.world.specs.Steps.Telling.{made_line, done_line, IsTold};

use crate::done::Done;
use crate::evaluation_line::push_evaluation;
use crate::event::Event;
use crate::plant_world::World;
use crate::world_fault::WorldFault;
use evaluation::Frame;
use exchange_core::Accepted;
use plant::Plant;
use std::alloc::{AllocError, Global};
use std::fmt::Write;
use text_lines::push_resource;

/// Writes what a resource answers to a message behind a line.
pub fn push_accepted(line: &mut String, accepted: Accepted) -> Result<(), AllocError>
    ensures { OnOk result (GrowsBy line.old line.new (accepted_text accepted)) }
{
    match accepted {
        Accepted::Taken => line.push_str("taken"),
        Accepted::Old => line.push_str("old"),
        Accepted::Unused => line.push_str("unused"),
        Accepted::Stray => line.push_str("stray"),
    }
}

fn push_cause(line: &mut String, cause: WorldFault) -> Result<(), AllocError>
    ensures { OnOk result (GrowsBy line.old line.new (refusal_text cause)) }
{
    match cause {
        WorldFault::NoSuchResource => line.push_str("NoSuchResource"),
        WorldFault::NoSuchTask => line.push_str("NoSuchTask"),
        WorldFault::NoSuchMessage => line.push_str("NoSuchMessage"),
        WorldFault::NumbersSpent => line.push_str("NumbersSpent"),
        WorldFault::IncarnationsSpent => line.push_str("IncarnationsSpent"),
        WorldFault::Memory => line.push_str("Memory"),
        WorldFault::NeverHeld => line.push_str("NeverHeld"),
    }
}

/// Writes `DELIVER m R taken` behind a line.
fn push_delivery(
    line: &mut String,
    plant: &Plant,
    message: u64,
    resource: usize,
    accepted: Accepted,
) -> Result<(), AllocError>
    ensures { OnOk result (GrowsBy line.old line.new (delivery_line plant.now message resource accepted)) }
{
    write!(line, "DELIVER {message} ")?;
    push_resource(line, plant, resource)?;
    line.push_str(" ")?;
    push_accepted(line, accepted)?;
    line.push_str("\n")
}

/// Writes `RESTART R i` behind a line.
fn push_restart(
    line: &mut String,
    plant: &Plant,
    resource: usize,
    incarnation: u32,
) -> Result<(), AllocError>
    ensures { OnOk result (GrowsBy line.old line.new (restart_line plant.now resource incarnation)) }
{
    line.push_str("RESTART ")?;
    push_resource(line, plant, resource)?;
    write!(line, " {incarnation}\n")
}

/// Writes `HEAR R S i new` behind a line; `old` where what was heard isn't newer.
fn push_hearing(
    line: &mut String,
    plant: &Plant,
    resource: usize,
    of: usize,
    incarnation: u32,
    newer: bool,
) -> Result<(), AllocError>
    ensures { OnOk result (GrowsBy line.old line.new (hear_line plant.now resource of incarnation newer)) }
{
    line.push_str("HEAR ")?;
    push_resource(line, plant, resource)?;
    line.push_str(" ")?;
    push_resource(line, plant, of)?;
    write!(line, " {incarnation} ")?;
    line.push_str(if newer { "new" } else { "old" })?;
    line.push_str("\n")
}

/// Writes `REFUSED e Kind` behind a line.
pub fn push_refused(line: &mut String, number: u64, cause: WorldFault) -> Result<(), AllocError>
    ensures { OnOk result (GrowsBy line.old line.new (refused_line number cause)) }
{
    write!(line, "REFUSED {number} ")?;
    push_cause(line, cause)?;
    line.push_str("\n")
}

fn push_made(
    line: &mut String,
    plant: &Plant,
    message: u64,
    made: Option<&Frame>,
) -> Result<(), AllocError>
    ensures { OnOk result
        (GrowsBy line.old line.new (made_line plant.now message (option_map (λ f. f.now) made.entry))) }
{
    match made {
        Some(frame) => push_evaluation(line, plant, message, frame.evaluation()),
        None => Ok(()),
    }
}

/// Writes what an event did behind a line; `log` are the evaluations made up to now.
pub fn push_done(
    line: &mut String,
    plant: &Plant,
    log: &[Frame],
    event: &Event,
    done: Done,
) -> Result<(), AllocError>
    ensures { OnOk result (GrowsBy line.old line.new (done_line plant.now log.now event.now done)) }
{
    match event {
        Event::Evaluate { .. } => match done {
            Done::Evaluated { message } => push_made(line, plant, message, log.last()),
            _ => Ok(()),
        },
        Event::Deliver { message, resource } => match done {
            Done::Delivered { accepted } => push_delivery(
                line, plant, *message, *resource, accepted,
            ),
            _ => Ok(()),
        },
        Event::Restart { resource } => match done {
            Done::Restarted { incarnation } => push_restart(line, plant, *resource, incarnation),
            _ => Ok(()),
        },
        Event::Hear {
            resource,
            of,
            incarnation,
        } => match done {
            Done::Heard { newer } => {
                push_hearing(line, plant, *resource, *of, *incarnation, newer)
            }
            _ => Ok(()),
        },
    }
}

/// Does an event and writes its line, in the place of what was there. `number` counts the events from 1.
pub fn tell(
    alloc: Global,
    world: &mut World,
    number: u64,
    event: &Event,
    line: &mut String,
) -> Result<(), AllocError>
    ensures { OnOk result (IsTold world.old world.new number event.now (string_bytes line.new)) }
{
    line.clear();
    let answer = world.step(alloc, event);
    let log = world.log();
    match answer {
        Ok(done) => push_done(line, world.plant(), log, event, done),
        Err(cause) => match cause {
            WorldFault::Memory => Err(AllocError),
            _ => push_refused(line, number, cause),
        },
    }
}
