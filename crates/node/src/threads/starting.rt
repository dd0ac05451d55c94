ghost use Rattle.std.specs.Prelude.{◌≡◌, All, IfOk, IfErr, map};
ghost use Rattle.node_reports.specs.Journals.{IsLawful};
ghost use Rattle.node_reports.specs.RunFaults.{IsStartFault};
ghost use Rattle.node.specs.Steps.Keeping.{IsLeftKept};
ghost use Rattle.node.specs.Steps.Working.{IsWorkerFor, IsPromisedFor, firsts_of_workers, first_promised, openings_of_workers, opening_promised};

use crate::gate::Gate;
use crate::threads::desk::Desk;
use crate::threads::ended::Ended;
use crate::threads::inbox::Inbox;
use crate::threads::lawful_for::LawfulFor;
use crate::threads::of_plant::OfPlant;
use crate::threads::serving::serve;
use crate::threads::worker::Worker;
use crossbeam_channel::Receiver;
use keepers::Keeper;
use node_reports::RunFault;
use std::alloc::Global;
use std::sync::Wait;
use std::thread::{PromisedHandle, Scope, Threads};

/// Starts the thread of one resource.
fn start_one<'s, E, R: Threads + Wait + Sync, K: Keeper, G: Gate, P: OfPlant + Send + Sync>(
    scope: &Scope<'s, E>,
    rt: &'s R,
    alloc: Global,
    desk: Desk<'s, G, P>,
    inbox: &'s Receiver<Inbox>,
    worker: Worker<K>,
    max_number: u32,
) -> Result<PromisedHandle<Ended<K>, LawfulFor<'s>>, RunFault>
where
    K: 's,
    P: 's,
    requires worker { IsWorkerFor desk.plant.now desk.firsts.now max_number worker }
    requires plant { desk.plant.now ≡ P.plant }
    ensures promised { IfOk result (λ h. IsPromisedFor desk.entry.plant.now desk.entry.firsts.now max_number h.promise) }
    ensures first { IfOk result (λ h. h.promise.first ≡ worker.first) }
    ensures opening { IfOk result (λ h. opening_promised h ≡ worker.opening) }
    ensures fault { IfErr result IsStartFault }
{
    let promise = LawfulFor {
        plant: desk.plant,
        firsts: desk.firsts,
        max_number,
        first: worker.first(),
        began: worker.began(),
    };
    let served = move || -> Ended<K>
        requires { worker.plant ≡ P.plant }
        ensures lawful { IsLawful worker.plant worker.firsts worker.max_number result.journal }
        ensures first { result.journal.first ≡ worker.first }
        ensures opening { result.journal.opening ≡ worker.opening }
        ensures keeps { IsLeftKept K.last K.kept_gives worker.plant result }
    { serve(rt, alloc, desk, inbox, worker) };
    match scope.spawn_with(promise, served) {
        Ok(handle) => Ok(handle),
        Err(_) => Err(RunFault::Spawn),
    }
}

/// Starts one thread for each resource.
pub(crate) fn start_all<
    's,
    E,
    R: Threads + Wait + Sync,
    K: Keeper,
    G: Gate,
    P: OfPlant + Send + Sync,
>(
    scope: &Scope<'s, E>,
    rt: &'s R,
    alloc: Global,
    desk: Desk<'s, G, P>,
    inboxes: &'s [Receiver<Inbox>],
    workers: Vec<Worker<K>>,
    max_number: u32,
) -> Result<Vec<PromisedHandle<Ended<K>, LawfulFor<'s>>>, RunFault>
where
    K: 's,
    P: 's,
    requires workers { All (IsWorkerFor desk.plant.now desk.firsts.now max_number) workers.items }
    requires plant { desk.plant.now ≡ P.plant }
    ensures promised { IfOk result (λ hs. All (λ h. IsPromisedFor desk.entry.plant.now desk.entry.firsts.now max_number h.promise) hs.items) }
    ensures firsts { IfOk result (λ hs. map first_promised hs.items ≡ firsts_of_workers workers.items) }
    ensures openings { IfOk result (λ hs. map opening_promised hs.items ≡ openings_of_workers workers.items) }
    ensures fault { IfErr result IsStartFault }
{
    let mut handles = Vec::new(alloc);
    for worker in workers {
        let resource = handles.len();
        let Some(inbox) = inboxes.get(resource) else {
            return Err(RunFault::Spawn);
        };
        let handle = start_one(scope, rt, alloc, desk, inbox, worker, max_number)?;
        let Ok(()) = handles.push(handle) else {
            return Err(RunFault::Memory);
        };
    }
    Ok(handles)
}
