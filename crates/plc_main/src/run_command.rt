ghost use Rattle.std.specs.Prelude.{◌≡◌, length, vec_len, IfOk, IfErr};
ghost use Rattle.evaluation.specs.InputTexts.{IsRead};
ghost use Rattle.console.specs.FieldWords.{one_text_of};
ghost use Rattle.plc_main.specs.RunText.{WritesAskedRun, WritesReport, ExplainsRun};

use console::{CommandFault, Prepared, RunRequest, wanted_for};
use evaluation::Inputs;
use keepers::Keeper;
use node::{Gate, run_threads};
use plant::Plant;
use run_texts::{planned_run, tell_report};
use std::alloc::Global;
use std::io::Write;
use std::sync::{Arc, Wait};
use std::thread::Threads;
use traces::{TraceTexts, Wanted, planned_texts};

/// What came of a run: whether there was a fault, and the texts of its trace.
#[derive(Debug, Drop)]
pub struct Ran {
    pub faulty: bool,
    pub texts: TraceTexts,
}

/// Runs the plan of a plant up to and with `until` (in ms) in threads, a command with these field inputs for each
/// entry, and writes what they did: a line for each evaluation, then for each command that wasn't answered and for each
/// fault, and last whether one thread makes the same evaluations. It tells whether there was a fault, and the texts of the
/// trace that are wanted, which has each entry's evaluation at the entry's moment.
///
/// `TooLong` and `Run` come before anything is written. After `Write` and `Memory` what went out is a prefix, and not all.
pub fn run_text<R: Threads + Wait + Sync, K: Keeper, G: Gate, W: Write>(
    rt: &R,
    alloc: Global,
    plant: Arc<Plant>,
    until: u32,
    inputs: Inputs,
    keepers: Vec<K>,
    gate: &G,
    wanted: Wanted<'_>,
    writer: &mut W,
) -> Result<Ran, CommandFault>
    requires { vec_len keepers ≡ length plant.value.resources }
    ensures ok { IfOk result
        (WritesReport K.last K.raise_gives K.kept_gives keepers.items plant.value until inputs wanted.entry
        (W.contents writer.old) (W.contents writer.new)) }
    ensures fault { IfErr result
        (ExplainsRun K.last K.raise_gives K.kept_gives keepers.items plant.value until inputs
        (W.contents writer.old) (W.contents writer.new)) }
{
    let run = planned_run(alloc, &plant, until, &inputs)?;
    let shared = Arc::try_clone(&plant)?;
    let report = run_threads(rt, alloc, shared, &run.commands, keepers, gate, u32::MAX)?;
    let texts = planned_texts(
        alloc,
        wanted,
        &plant,
        until,
        &run.dues,
        report.book.entries(),
    )?;
    let faulty = tell_report(alloc, plant, &report, writer)?;
    Ok(Ran { faulty, texts })
}

/// Runs a plant up to the moment that is asked for, and writes what its threads did; whether there was a fault in them, and
/// the texts for the files that are asked for.
pub fn obey_run<R: AllocGlobal + Threads + Wait + Sync, K: Keeper, G: Gate, W: Write>(
    rt: &R,
    request: &RunRequest<'_>,
    prepared: Prepared,
    keepers: Vec<K>,
    gate: &G,
    writer: &mut W,
) -> Result<Ran, CommandFault>
    requires keepers { vec_len keepers ≡ length prepared.plant.value.resources }
    requires words { IsRead (one_text_of request.now.words.items) prepared.inputs }
    ensures ok { IfOk result
        (WritesAskedRun K.last K.raise_gives K.kept_gives keepers.items prepared.plant.value request.now
        (W.contents writer.old) (W.contents writer.new)) }
    ensures fault { IfErr result
        (ExplainsRun K.last K.raise_gives K.kept_gives keepers.items prepared.plant.value request.now.until prepared.inputs
        (W.contents writer.old) (W.contents writer.new)) }
{
    let Prepared { plant, inputs } = prepared;
    let wanted = wanted_for(request.plant, request.files);
    run_text(
        rt,
        rt.alloc(),
        plant,
        request.until,
        inputs,
        keepers,
        gate,
        wanted,
        writer,
    )
}
