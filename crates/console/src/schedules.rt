ghost use Rattle.std.specs.Prelude.{◌≡◌, ◌⊎◌, IfOk, IfErr};
ghost use Rattle.tested_schedules.specs.Tested.{EndsEarly};
ghost use Rattle.tested_schedules.specs.TestedLines.{EndsTestedLines};
ghost use Rattle.console.specs.Statuses.{status_of_expectations};
ghost use Rattle.console.specs.TracedRun.{WritesTracedRun, WritesTracedLines};
ghost use Rattle.console.specs.Steps.Ending.{AreEndTexts};
ghost use Rattle.console.specs.Endings.{AreLinesDone, EndsAfterLines, EndsAfterSchedule, EndsSim, EndsWith, IsScheduleDone};

use crate::answered::Answered;
use crate::answers::wanted_for;
use crate::command_fault::CommandFault;
use crate::faults::{print_failure, print_live_fault, print_sim_fault};
use crate::files::{STANDARD_INPUT, file_plant, file_text};
use crate::piped::Piped;
use crate::request::SimRequest;
use crate::status::{DIFFERS, DONE};
use plant::Plant;
use std::alloc::{AllocError, Global};
use std::io;
use std::io::{BufReader, Read, Write};
use std::rt::{Clock, Files};
use std::sync::Arc;
use tested_schedules::{LiveFault, Tested, test_in_turns, test_schedule};
use text_lines::{OnTerminal, ToldLines};
use traces::{TraceTexts, event_texts};
use world::{SimFault, Simulated};

/// The status after a schedule was done.
fn status_of(has_unmet: bool) -> u8
    ensures { result ≡ status_of_expectations has_unmet }
{
    if has_unmet { DIFFERS } else { DONE }
}

/// The texts for the files of a trace of a schedule that was done.
fn texts_of(
    alloc: Global,
    request: &SimRequest<'_>,
    ended: &Simulated,
) -> Result<TraceTexts, AllocError>
    ensures { IfOk result (AreEndTexts request.now ended.now) }
{
    let wanted = wanted_for(request.plant, request.files);
    let world = &ended.world;
    event_texts(alloc, wanted, world.plant(), ended.events, world.log())
}

/// The status of a schedule that was done, and the texts for the files of its trace.
fn answered_for(
    alloc: Global,
    request: &SimRequest<'_>,
    tested: &Tested,
) -> Result<Answered, AllocError>
    ensures status { IfOk result (λ answered. answered.status ≡ status_of_expectations tested.now.has_unmet) }
    ensures texts { IfOk result (λ answered. AreEndTexts request.now tested.now.ended answered.texts) }
{
    let texts = texts_of(alloc, request, &tested.ended)?;
    Ok(Answered {
        status: status_of(tested.has_unmet),
        texts,
    })
}

/// Writes what each event of a schedule does to the plant, and what its EXPECT lines find, as the words ask for it; the
/// status, and the texts for the files of its trace.
pub fn obey_schedule<W: Write>(
    alloc: Global,
    request: &SimRequest<'_>,
    plant: Arc<Plant>,
    schedule: &str,
    writer: &mut W,
) -> Result<Answered, SimFault>
    ensures ok { IfOk result
        (WritesTracedRun plant.value request.now schedule.now (W.contents writer.old) (W.contents writer.new)) }
    ensures fault { IfErr result
        (EndsEarly plant.value request.now.max_number schedule.now (W.contents writer.old) (W.contents writer.new)) }
{
    let tested = test_schedule(alloc, plant, schedule, request.max_number, writer)?;
    match answered_for(alloc, request, &tested) {
        Ok(answered) => Ok(answered),
        Err(_) => Err(SimFault::Memory),
    }
}

/// Tells how a schedule ended; the status, and the texts for the files of its trace. `is_closed` is whether the output's
/// reader has ended.
fn tell_schedule<R: Eprint + AllocGlobal>(
    rt: &R,
    request: &SimRequest<'_>,
    schedule: &str,
    is_closed: bool,
    obeyed: Result<Answered, SimFault>,
) -> io::Result<Answered>
    ensures { IfOk result (EndsAfterSchedule obeyed) }
{
    match obeyed {
        Ok(answered) => Ok(answered),
        Err(fault) => {
            let status = print_sim_fault(rt, request.schedule, schedule, is_closed, fault)?;
            Ok(Answered::with(status))
        }
    }
}

/// Writes what each event of a schedule does; the status, and the texts for the files of its trace.
fn write_schedule<R: Clock + Print + Eprint + AllocGlobal>(
    rt: &R,
    told: bool,
    request: &SimRequest<'_>,
    plant: Arc<Plant>,
    schedule: &str,
) -> io::Result<Answered>
    ensures { IfOk result (IsScheduleDone plant.value request.now) }
{
    let mut writer = Piped::new(ToldLines::new(io::writer(rt), OnTerminal::new(rt, told)));
    let obeyed = obey_schedule(rt.alloc(), request, plant, schedule, &mut writer);
    writer.to.end();
    tell_schedule(rt, request, schedule, writer.is_closed, obeyed)
}

/// Writes what each event of a schedule does to the plant, and what its EXPECT lines find, as the words ask for it, before
/// it reads the next line; the status, and the texts for the files of its trace.
pub fn obey_lines<R: Read, W: Write>(
    alloc: Global,
    request: &SimRequest<'_>,
    plant: Arc<Plant>,
    line: &mut Vec<u8>,
    input: &mut R,
    writer: &mut W,
) -> Result<Answered, LiveFault>
    ensures ok { IfOk result
        (WritesTracedLines plant.value request.now (R.remaining input.old) (R.remaining input.new)
        (W.contents writer.old) (W.contents writer.new)) }
    ensures fault { IfErr result
        (EndsTestedLines plant.value request.now.max_number (R.remaining input.old) (R.remaining input.new) line.new.items
        (W.contents writer.old) (W.contents writer.new)) }
{
    let tested = test_in_turns(alloc, plant, request.max_number, line, input, writer)?;
    match answered_for(alloc, request, &tested) {
        Ok(answered) => Ok(answered),
        Err(_) => Err(LiveFault::Memory),
    }
}

/// Tells how the lines of standard input ended, of which this one was read last; the status, and the texts for the files of
/// the trace.
fn tell_lines<R: Eprint + AllocGlobal>(
    rt: &R,
    request: &SimRequest<'_>,
    line: &[u8],
    obeyed: Result<Answered, LiveFault>,
) -> io::Result<Answered>
    ensures { IfOk result (EndsAfterLines obeyed) }
{
    match obeyed {
        Ok(answered) => Ok(answered),
        Err(fault) => {
            let status = print_live_fault(rt, request.schedule, line, fault)?;
            Ok(Answered::with(status))
        }
    }
}

/// Writes what each event does that comes on standard input; the status, and the texts for the files of its trace.
fn write_lines<R: Input + Print + Eprint + AllocGlobal>(
    rt: &R,
    request: &SimRequest<'_>,
    plant: Arc<Plant>,
) -> io::Result<Answered>
    ensures { IfOk result (λ answered. EndsWith 3 answered ⊎ AreLinesDone plant.value request.now answered) }
{
    let Ok(mut input) = BufReader::new(rt.alloc(), rt.reader()) else {
        return Ok(Answered::with(print_failure(rt, CommandFault::Memory)?));
    };
    let mut writer = io::writer(rt);
    let mut line = Vec::new(rt.alloc());
    let obeyed = obey_lines(
        rt.alloc(),
        request,
        plant,
        &mut line,
        &mut input,
        &mut writer,
    );
    tell_lines(rt, request, &line, obeyed)
}

/// Reads the file of a plant and then that of a schedule, or standard input line by line where that is `-`, and writes
/// what each event does; the status, and the texts for the files of the trace. `told` is whether it is told on standard
/// error how many lines of a file's schedule went out.
pub fn answer_schedule<R: Files + Clock + Input + Print + Eprint + AllocGlobal>(
    rt: &R,
    told: bool,
    request: &SimRequest<'_>,
) -> io::Result<Answered>
    ensures { IfOk result (EndsSim request.now) }
{
    let plant = match file_plant(rt, request.plant)? {
        Ok(plant) => plant,
        Err(status) => return Ok(Answered::with(status)),
    };
    if request.schedule == STANDARD_INPUT {
        return write_lines(rt, request, plant);
    }
    match file_text(rt, request.schedule)? {
        Ok(schedule) => write_schedule(rt, told, request, plant, schedule.as_str()),
        Err(status) => Ok(Answered::with(status)),
    }
}
