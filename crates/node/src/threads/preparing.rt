ghost use Rattle.std.specs.Prelude.{◌≡◌, ◌≢◌, ◌<◌, All, IfOk, IfErr, OnOk, Ok, Err, length};
ghost use Rattle.evaluation.specs.Retained.{Suits};
ghost use Rattle.exchange_core.specs.CoreValue.{AreOpeningOf};
ghost use Rattle.node_reports.specs.RunFaults.{IsRaiseFault, IsStartFault};
ghost use Rattle.keepers.specs.declared.keeper_fault.KeeperFault.{KeeperFault};
ghost use Rattle.keepers.specs.Keepers.{TellsNoMore};
ghost use Rattle.keepers.specs.Openings.{TellsOpening};
ghost use Rattle.node_reports.specs.declared.run_fault.RunFault.TheVariants.{Keeper as KeeperRefused};
ghost use Rattle.node.specs.Raises.{ComesAfterFirst, FirstMayRaise, MayNotTell, MayRaise, MayRefuse, OneMayRefuse};
ghost use Rattle.node.specs.Steps.Working.{IsWorkerFor, firsts_of_workers, openings_of_raised, openings_of_workers, AreAbove, AreOpened, AreRaised, AreTold, lasts_of};

use crate::threads::inbox::Inbox;
use crate::threads::raised::Raised;
use crate::threads::worker::Worker;
use crossbeam_channel::{Receiver, Sender};
use evaluation::Retained;
use keepers::Keeper;
use node_reports::{Command, Opening, RunFault};
use plant::Plant;
use std::alloc::{AllocError, Global};
use std::sync::Arc;
use task_codes::{TaskCode, TaskRef};

/// Makes an inbox for each resource, with its door.
pub(crate) fn make_inboxes(
    alloc: Global,
    count: usize,
) -> Result<(Vec<Sender<Inbox>>, Vec<Receiver<Inbox>>), AllocError> {
    let mut doors = Vec::with_capacity(alloc, count)?;
    let mut inboxes = Vec::with_capacity(alloc, count)?;
    for _resource in 0..count {
        let (door, inbox) = crossbeam_channel::unbounded(alloc)?;
        doors.push(door)?;
        inboxes.push(inbox)?;
    }
    Ok((doors, inboxes))
}

/// Raises a keeper. Keeper: it answered a fault.
#[tactic(auto, using(crate::proofs::Refused::may_raise))]
fn raise<K: Keeper>(keeper: &mut K) -> Result<u32, RunFault>
    ensures above { IfOk result (λ first. K.last keeper.old < first) }
    ensures raised { IfOk result (λ first. K.last keeper.new ≡ first) }
    ensures given { IfOk result (λ first. K.raise_gives keeper.old (Ok first)) }
    ensures may { OnOk result (MayRaise (K.raise_gives keeper.old)) }
    ensures stays { TellsNoMore (K.kept_gives keeper.old) (K.kept_gives keeper.new) }
    ensures keeps { TellsNoMore (K.kept_gives keeper.new) (K.kept_gives keeper.old) }
    ensures fault { IfErr result (λ fault. (fault ≡ KeeperRefused) × ((why : KeeperFault) × K.raise_gives keeper.old (Err why))) }
{
    match keeper.raise() {
        Ok(first) => Ok(first),
        Err(_) => Err(RunFault::Keeper),
    }
}

/// What a keeper has kept of a task. Keeper: it answered a fault.
fn kept_of<K: Keeper>(keeper: &mut K, task: usize, code: &TaskCode) -> Result<Retained, RunFault>
    ensures suits { IfOk result (Suits code.now) }
    ensures last { K.last keeper.new ≡ K.last keeper.old }
    ensures told { IfOk result (λ values. K.kept_gives keeper.old task code.now (Ok values)) }
    ensures stays { TellsNoMore (K.kept_gives keeper.old) (K.kept_gives keeper.new) }
    ensures keeps { TellsNoMore (K.kept_gives keeper.new) (K.kept_gives keeper.old) }
    ensures fault { IfErr result (λ fault. (fault ≡ KeeperRefused) × ((why : KeeperFault) × K.kept_gives keeper.old task code.now (Err why))) }
{
    match keeper.kept(task, code) {
        Ok(retained) => Ok(retained),
        Err(_) => Err(RunFault::Keeper),
    }
}

/// What a keeper has kept of each task of its resource, in their order. Where memory is wanting it isn't asked.
#[tactic(auto, using(keepers::specs::Steps::Telling::told_none, keepers::specs::Steps::Telling::told_more, keepers::specs::Steps::Telling::tells_more, crate::proofs::Refused::not_told))]
fn kept_opening<K: Keeper>(
    alloc: Global,
    plant: &Plant,
    resource: usize,
    keeper: &mut K,
) -> Result<Opening, RunFault>
    ensures opened { IfOk result (AreOpeningOf plant.now resource) }
    ensures told { IfOk result (TellsOpening (K.kept_gives keeper.old) plant.now resource) }
    ensures last { K.last keeper.new ≡ K.last keeper.old }
    ensures keeps { TellsNoMore (K.kept_gives keeper.new) (K.kept_gives keeper.old) }
    ensures fault { IfErr result IsRaiseFault }
    ensures refused { IfErr result (λ fault. fault ≡ KeeperRefused → MayNotTell (K.kept_gives keeper.old) plant.now resource) }
    ensures unasked { IfErr result (λ fault. fault ≢ KeeperRefused → keeper.new ≡ keeper.old) }
{
    // The getter hands out that each task has its code.
    let _resources = plant.resources();
    let tasks = plant.tasks(resource).len();
    let mut listed = Vec::with_capacity(alloc, tasks)?;
    for task in 0..tasks {
        if let Some(code) = plant.code(TaskRef { resource, task }) {
            let retained = kept_of(keeper, task, code)?;
            let Ok(()) = listed.push(retained) else {
                return Err(RunFault::Memory);
            };
        }
    }
    Ok(Opening::of(listed))
}

/// Raises a keeper, and asks what it has kept. It answers it with that, and the incarnation.
#[tactic(auto, using(crate::proofs::Refused::not_told_first, crate::proofs::Told::told_after, crate::proofs::Told::told_before))]
fn raise_one<K: Keeper>(
    alloc: Global,
    plant: &Plant,
    resource: usize,
    keeper: K,
) -> Result<(Raised<K>, u32), RunFault>
    ensures above { IfOk result (λ r. K.last keeper < r.1) }
    ensures given { IfOk result (λ r. K.raise_gives keeper (Ok r.1)) }
    ensures raised { IfOk result (λ r. K.last r.0.keeper ≡ r.1) }
    ensures opened { IfOk result (λ r. AreOpeningOf plant.now resource r.0.opening) }
    ensures told { IfOk result (λ r. TellsOpening (K.kept_gives keeper) plant.now resource r.0.opening) }
    ensures keeps { IfOk result (λ r. TellsOpening (K.kept_gives r.0.keeper) plant.now resource r.0.opening) }
    ensures fault { IfErr result IsRaiseFault }
    ensures refused { IfErr result (λ fault. fault ≡ KeeperRefused → MayRefuse (K.raise_gives keeper) (K.kept_gives keeper) plant.now resource) }
    ensures may { OnOk result (MayRaise (K.raise_gives keeper)) }
    ensures later { IfErr result (λ fault. fault ≢ KeeperRefused → MayRaise (K.raise_gives keeper)) }
{
    let mut keeper = keeper;
    let first = raise(&mut keeper)?;
    let opening = kept_opening(alloc, plant, resource, &mut keeper)?;
    Ok((Raised { keeper, opening }, first))
}

/// Raises each keeper, in order, and asks what it has kept. It answers them with that, and the first incarnations.
pub(crate) fn raise_all<K: Keeper>(
    alloc: Global,
    plant: &Plant,
    keepers: Vec<K>,
) -> Result<(Vec<Raised<K>>, Vec<u32>), RunFault>
    ensures above { IfOk result (λ r. AreAbove K.last keepers.items r.1.items) }
    ensures given { IfOk result (λ r. AreRaised K.raise_gives keepers.items r.1.items) }
    ensures raised { IfOk result (λ r. lasts_of K.last r.0.items ≡ r.1.items) }
    ensures opened { IfOk result (λ r. AreOpened K.kept_gives plant.now 0 r.0.items) }
    ensures told { IfOk result (λ r. AreTold K.kept_gives plant.now keepers.items (openings_of_raised r.0.items)) }
    ensures fault { IfErr result IsRaiseFault }
    ensures refused { IfErr result (OneMayRefuse K.raise_gives K.kept_gives plant.now keepers.items) }
    ensures may { OnOk result (FirstMayRaise K.raise_gives keepers.items) }
    ensures later { IfErr result (ComesAfterFirst K.raise_gives keepers.items) }
{
    let mut raised = Vec::new(alloc);
    let mut firsts = Vec::new(alloc);
    for keeper in keepers {
        let resource = raised.len();
        let (one, first) = raise_one(alloc, plant, resource, keeper)?;
        let Ok(()) = raised.push(one) else {
            return Err(RunFault::Memory);
        };
        let Ok(()) = firsts.push(first) else {
            return Err(RunFault::Memory);
        };
    }
    Ok((raised, firsts))
}

/// How many of the commands are a resource's.
fn count_of(commands: &[Command], resource: usize) -> usize {
    commands
        .iter()
        .filter(|command| command.resource == resource)
        .count()
}

/// Makes the resources with their first incarnations, in which their keepers are, each with room for a fault of each of its commands.
pub(crate) fn make_workers<K: Keeper>(
    alloc: Global,
    plant: &Arc<Plant>,
    raised: Vec<Raised<K>>,
    firsts: &[u32],
    max_number: u32,
    commands: &[Command],
) -> Result<Vec<Worker<K>>, RunFault>
    requires many { length firsts.now ≡ length plant.now.value.resources }
    requires raised { lasts_of K.last raised.items ≡ firsts.now }
    requires opened { AreOpened K.kept_gives plant.now.value 0 raised.items }
    ensures made { IfOk result (λ ws. All (IsWorkerFor plant.now.value firsts.now max_number) ws.items) }
    ensures firsts { IfOk result (λ ws. firsts_of_workers ws.items ≡ firsts.now) }
    ensures openings { IfOk result (λ ws. openings_of_workers ws.items ≡ openings_of_raised raised.items) }
    ensures fault { IfErr result IsStartFault }
{
    let mut workers = Vec::new(alloc);
    for one in raised {
        let resource = workers.len();
        let room = count_of(commands, resource);
        let worker = Worker::new(alloc, plant, resource, one, firsts, max_number, room)?;
        let Ok(()) = workers.push(worker) else {
            return Err(RunFault::Memory);
        };
    }
    Ok(workers)
}
