ghost use Rattle.std.specs.Prelude.{◌≡◌, IfOk, IfErr, OnOk, length, vec_len};
ghost use Rattle.node_reports.specs.Commands.{AreNumbered, AreForPlant};
ghost use Rattle.node_reports.specs.Journals.{BeginAbove};
ghost use Rattle.node.specs.Keeping.{KeepAllLeft};
ghost use Rattle.node.specs.Openings.{OpenAsTold};
ghost use Rattle.node.specs.Raises.{BeginAsRaised, ComesAfterFirst, FirstMayRaise, OneMayRefuse};
ghost use Rattle.node_reports.specs.Reports.{IsFittingBook, AreJournalsOf, AreInBook, AreAnswers, RunsAgain, CanBeMadeAgain, AreTold, IsRunFault};

use crate::gate::Gate;
use crate::threads::{Outcome, run_all};
use keepers::Keeper;
use node_reports::{Command, Report, RunFault, collect};
use plant::Plant;
use std::alloc::Global;
use std::sync::{Arc, Wait};
use std::thread::Threads;

/// Runs commands on a plant, one thread for each resource, and reports what was done. The command of ticket k stands at the k-th place.
///
/// Each keeper, one for each resource in order, is raised once before the threads start, and then asked what it has kept of each task, which begins with that; it is raised once more for each Restart. `max_number` is the greatest number of an evaluation in one incarnation.
/// The caller's thread asks the gate about each command in order, and sends it to its resource; each resource obeys what comes to it, enters what it makes into one book, has its keeper keep the task's retained variables, if there are any, and sends the evaluation to each other
/// resource that takes from the task. Then all threads are stopped and joined. What one command met is a fault in the report; a run without a report is a fault of the run.
pub fn run_threads<R: Threads + Wait + Sync, K: Keeper, G: Gate>(
    rt: &R,
    alloc: Global,
    plant: Arc<Plant>,
    commands: &[Command],
    keepers: Vec<K>,
    gate: &G,
    max_number: u32,
) -> Result<Report, RunFault>
    requires numbered { AreNumbered commands.now }
    requires resources { AreForPlant plant.value commands.now }
    requires keepers { vec_len keepers ≡ length plant.value.resources }
    ensures fitting { IfOk result (λ r. IsFittingBook r.book r.journals) }
    ensures journals { IfOk result (λ r. AreJournalsOf plant.value max_number r.journals) }
    ensures made { IfOk result (λ r. AreInBook r.book.entries r.journals) }
    ensures answers { IfOk result (λ r. AreAnswers commands.now r.book.entries r.journals r.unanswered) }
    ensures faults { IfOk result (λ r. AreTold plant.value commands.now r.journals r.unanswered r.node_faults) }
    ensures again { IfOk result (λ r. RunsAgain plant.value max_number r.book r.journals) }
    ensures made_again { IfOk result (λ r. CanBeMadeAgain plant.value max_number r.book r.journals) }
    ensures begun { IfOk result (λ r. BeginAbove K.last keepers.items r.journals) }
    ensures given { IfOk result (λ r. BeginAsRaised K.raise_gives keepers.items r.journals) }
    ensures opened { IfOk result (λ r. OpenAsTold K.kept_gives plant.value keepers.items r.journals) }
    ensures fault { IfErr result (IsRunFault plant.value max_number commands.now) }
    ensures refused { IfErr result (OneMayRefuse K.raise_gives K.kept_gives plant.value keepers.items) }
    ensures may { OnOk result (FirstMayRaise K.raise_gives keepers.items) }
    ensures later { IfErr result (ComesAfterFirst K.raise_gives keepers.items) }
{
    let (report, _keepers) = run_with_keepers(
        rt, alloc, plant, commands, keepers, gate, max_number,
    )?;
    Ok(report)
}

/// The same, and the keepers come back, in order.
pub fn run_with_keepers<R: Threads + Wait + Sync, K: Keeper, G: Gate>(
    rt: &R,
    alloc: Global,
    plant: Arc<Plant>,
    commands: &[Command],
    keepers: Vec<K>,
    gate: &G,
    max_number: u32,
) -> Result<(Report, Vec<K>), RunFault>
    requires numbered { AreNumbered commands.now }
    requires resources { AreForPlant plant.value commands.now }
    requires keepers { vec_len keepers ≡ length plant.value.resources }
    ensures fitting { IfOk result (λ r. IsFittingBook r.0.book r.0.journals) }
    ensures journals { IfOk result (λ r. AreJournalsOf plant.value max_number r.0.journals) }
    ensures made { IfOk result (λ r. AreInBook r.0.book.entries r.0.journals) }
    ensures answers { IfOk result (λ r. AreAnswers commands.now r.0.book.entries r.0.journals r.0.unanswered) }
    ensures faults { IfOk result (λ r. AreTold plant.value commands.now r.0.journals r.0.unanswered r.0.node_faults) }
    ensures again { IfOk result (λ r. RunsAgain plant.value max_number r.0.book r.0.journals) }
    ensures made_again { IfOk result (λ r. CanBeMadeAgain plant.value max_number r.0.book r.0.journals) }
    ensures begun { IfOk result (λ r. BeginAbove K.last keepers.items r.0.journals) }
    ensures given { IfOk result (λ r. BeginAsRaised K.raise_gives keepers.items r.0.journals) }
    ensures opened { IfOk result (λ r. OpenAsTold K.kept_gives plant.value keepers.items r.0.journals) }
    ensures kept { IfOk result (λ r. KeepAllLeft K.last K.kept_gives plant.value r.0.node_faults r.1.items r.0.journals) }
    ensures fault { IfErr result (IsRunFault plant.value max_number commands.now) }
    ensures refused { IfErr result (OneMayRefuse K.raise_gives K.kept_gives plant.value keepers.items) }
    ensures may { OnOk result (FirstMayRaise K.raise_gives keepers.items) }
    ensures later { IfErr result (ComesAfterFirst K.raise_gives keepers.items) }
{
    let Outcome {
        book,
        journals,
        keepers,
        faults,
    } = run_all(rt, alloc, &plant, commands, keepers, gate, max_number)?;
    // The getter hands out that each entry fits those before it.
    let _entries = book.entries();
    let report = collect(
        rt, alloc, &plant, max_number, commands, book, journals, faults,
    )?;
    Ok((report, keepers))
}
