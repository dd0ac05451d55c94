ghost use Rattle.std.specs.Prelude.{◌≡◌, ◌+◌, IfOk, length};
ghost use Rattle.traces.specs.Moments.{made_at, of_events};
ghost use Rattle.traces.specs.Times.{time_of};
ghost use Rattle.traces.specs.Texts.{AreOutputTexts, ArePlannedTexts, AreTimedTexts};

use crate::evaluated_moments::of_events;
use crate::outputs::output_tracks;
use crate::texts::{TraceTexts, Wanted, trace_texts};
use crate::times::Times;
use evaluation::{Evaluation, Frame};
use plant::Plant;
use std::alloc::{AllocError, Global};
use task_codes::Due;

/// How many moments there are with the one before all others, as a number of 32 bits. More don't fit into memory.
fn count(moments: &[Option<&Evaluation>]) -> Result<u32, AllocError>
    ensures { IfOk result (λ count. count ≡ length (made_at moments.now) + 1) }
{
    match u32::try_from(moments.len()) {
        Ok(count) if count < u32::MAX => Ok(count + 1),
        _ => Err(AllocError),
    }
}

/// The texts that are wanted of the outputs of a plant's tasks.
fn output_texts(
    alloc: Global,
    wanted: Wanted<'_>,
    times: Times<'_>,
    plant: &Plant,
    moments: &[Option<&Evaluation>],
) -> Result<TraceTexts, AllocError>
    ensures { IfOk result (AreTimedTexts wanted.entry (time_of times.entry) plant.now (made_at moments.now)) }
{
    let count = count(moments)?;
    let tracks = output_tracks(alloc, plant, moments)?;
    trace_texts(alloc, wanted, times, count, &tracks)
}

/// The texts that are wanted of the outputs of a plant's tasks over so many events, which made these evaluations: before the
/// first event at 0 ms, and after each event, 1 ms after the one before. An evaluation's ticket is the number of its event.
pub fn event_texts(
    alloc: Global,
    wanted: Wanted<'_>,
    plant: &Plant,
    events: u64,
    log: &[Frame],
) -> Result<TraceTexts, AllocError>
    ensures { IfOk result (AreOutputTexts wanted.entry plant.now (of_events events log.now)) }
{
    if wanted.is_nothing() {
        return Ok(TraceTexts::none());
    }
    let moments = of_events(alloc, events, log)?;
    output_texts(alloc, wanted, Times::Each(1), plant, &moments)
}

/// The texts that are wanted of the outputs of a plant's tasks over a plan up to and with `until`, where its commands made these
/// evaluations: before the plan at 0 ms, and after each command, at the moment of its entry. An evaluation's ticket is the
/// number of its command.
pub fn planned_texts(
    alloc: Global,
    wanted: Wanted<'_>,
    plant: &Plant,
    until: u32,
    dues: &[Due],
    log: &[Frame],
) -> Result<TraceTexts, AllocError>
    ensures { IfOk result (ArePlannedTexts wanted.entry plant.now until dues.now log.now) }
{
    if wanted.is_nothing() {
        return Ok(TraceTexts::none());
    }
    let moments = of_events(alloc, dues.len() as u64, log)?;
    output_texts(
        alloc,
        wanted,
        Times::Planned { dues, until },
        plant,
        &moments,
    )
}
