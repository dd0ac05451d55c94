mod desk;
mod ended;
mod entered;
mod entering;
mod hello;
mod inbox;
mod issuing;
mod joining;
mod keeping;
mod lawful_for;
mod noted;
mod of_plant;
mod outcome;
mod parted;
mod plant_book;
mod posting;
mod preparing;
mod raised;
mod restarting;
mod room;
mod serving;
mod starting;
mod worker;
mod worker_state;

ghost use Rattle.std.specs.Prelude.{◌≡◌, All, IfOk, IfErr, OnOk, length};
ghost use Rattle.node_reports.specs.Codes.{AreOfPlant};
ghost use Rattle.node_reports.specs.Journals.{firsts_of, IsLawful, BeginAbove};
ghost use Rattle.node_reports.specs.RunFaults.{IsStartFault, IsThreadsFault};
ghost use Rattle.node.specs.Openings.{OpenAsTold};
ghost use Rattle.node.specs.Keeping.{KeepAllLeft};
ghost use Rattle.node.specs.Raises.{BeginAsRaised, ComesAfterFirst, FirstMayRaise, OneMayRefuse};
ghost use Rattle.node.specs.Steps.Keeping.{IsLeftKept};
ghost use Rattle.node.specs.Steps.Working.{IsWorkerFor, firsts_of_workers, firsts_of_ended, openings_of_workers, openings_of_ended};

use crate::gate::Gate;
use crate::threads::desk::Desk;
use crate::threads::ended::Ended;
use crate::threads::inbox::Inbox;
use crate::threads::issuing::{issue_all, stop_all};
use crate::threads::joining::part;
use crate::threads::noted::Noted;
use crate::threads::of_plant::OfPlant;
use crate::threads::parted::Parted;
use crate::threads::plant_book::PlantBook;
use crate::threads::preparing::{make_inboxes, make_workers, raise_all};
use crate::threads::starting::start_all;
use crate::threads::worker::Worker;
use crossbeam_channel::Receiver;
use keepers::Keeper;
use node_reports::{Command, RunFault};
pub use outcome::Outcome;
use plant::Plant;
use std::alloc::Global;
use std::marker::Brand;
use std::sync::{Arc, Mutex, Wait};
use std::thread;
use std::thread::{Scope, Threads};

/// Runs the commands in threads that all end before the scope does.
fn run_in<'s, E, R: Threads + Wait + Sync, K: Keeper, G: Gate, P: OfPlant + Send + Sync>(
    scope: &Scope<'s, E>,
    rt: &'s R,
    alloc: Global,
    desk: Desk<'s, G, P>,
    inboxes: &'s [Receiver<Inbox>],
    workers: Vec<Worker<K>>,
    max_number: u32,
    noted: &mut Noted,
) -> Result<Vec<Ended<K>>, RunFault>
where
    K: 's,
    P: 's,
    requires workers { All (IsWorkerFor desk.plant.now desk.firsts.now max_number) workers.items }
    requires plant { desk.plant.now ≡ P.plant }
    ensures lawful { IfOk result (λ es. All (λ e. IsLawful desk.entry.plant.now desk.entry.firsts.now max_number e.journal) es.items) }
    ensures firsts { IfOk result (λ es. firsts_of_ended es.items ≡ firsts_of_workers workers.items) }
    ensures openings { IfOk result (λ es. openings_of_ended es.items ≡ openings_of_workers workers.items) }
    ensures keeps { IfOk result (λ es. All (IsLeftKept K.last K.kept_gives desk.entry.plant.now) es.items) }
    ensures fault { IfErr result IsStartFault }
{
    let started = start_all(scope, rt, alloc, desk, inboxes, workers, max_number);
    match started {
        Ok(handles) => {
            issue_all(rt, &desk, noted);
            stop_all(rt, desk.doors);
            match thread::join_promised(rt, handles) {
                Ok(ended) => Ok(ended),
                Err(_) => Err(RunFault::Memory),
            }
        }
        Err(fault) => {
            stop_all(rt, desk.doors);
            Err(fault)
        }
    }
}

/// Opens the scope of the threads.
fn run_scoped<R: Threads + Wait + Sync, K: Keeper, G: Gate, P: OfPlant + Send + Sync>(
    rt: &R,
    alloc: Global,
    desk: Desk<'_, G, P>,
    inboxes: &[Receiver<Inbox>],
    workers: Vec<Worker<K>>,
    max_number: u32,
    noted: &mut Noted,
) -> Result<Vec<Ended<K>>, RunFault>
    requires workers { All (IsWorkerFor desk.plant.now desk.firsts.now max_number) workers.items }
    requires plant { desk.plant.now ≡ P.plant }
    ensures lawful { IfOk result (λ es. All (λ e. IsLawful desk.entry.plant.now desk.entry.firsts.now max_number e.journal) es.items) }
    ensures firsts { IfOk result (λ es. firsts_of_ended es.items ≡ firsts_of_workers workers.items) }
    ensures openings { IfOk result (λ es. openings_of_ended es.items ≡ openings_of_workers workers.items) }
    ensures keeps { IfOk result (λ es. All (IsLeftKept K.last K.kept_gives desk.entry.plant.now) es.items) }
    ensures fault { IfErr result IsStartFault }
{
    thread::scope(
        thread::scope_env(),
        rt,
        |scope| -> Result<Vec<Ended<K>>, RunFault>
            requires workers { All (IsWorkerFor desk.plant.now desk.firsts.now max_number) workers.items }
            requires plant { desk.plant.now ≡ P.plant }
            ensures lawful { IfOk result (λ es. All (λ e. IsLawful desk.entry.plant.now desk.entry.firsts.now max_number e.journal) es.items) }
            ensures firsts { IfOk result (λ es. firsts_of_ended es.items ≡ firsts_of_workers workers.items) }
            ensures openings { IfOk result (λ es. openings_of_ended es.items ≡ openings_of_workers workers.items) }
            ensures keeps { IfOk result (λ es. All (IsLeftKept K.last K.kept_gives desk.entry.plant.now) es.items) }
            ensures fault { IfErr result IsStartFault }
        { run_in(scope, rt, alloc, desk, inboxes, workers, max_number, noted) },
    )
}

/// Runs the commands in one thread for each resource, and joins the threads. The plant is the one that P names.
fn run_for<P: OfPlant + Send + Sync, R: Threads + Wait + Sync, K: Keeper, G: Gate>(
    rt: &R,
    alloc: Global,
    plant: &Arc<Plant>,
    commands: &[Command],
    keepers: Vec<K>,
    gate: &G,
    max_number: u32,
) -> Result<Outcome<K>, RunFault>
    requires keepers { length keepers.items ≡ length plant.now.value.resources }
    requires plant { plant.now.value ≡ P.plant }
    ensures lawful { IfOk result (λ o. All (IsLawful plant.now.value (firsts_of o.journals.items) max_number) o.journals.items) }
    ensures begun { IfOk result (λ o. BeginAbove K.last keepers.items o.journals.items) }
    ensures given { IfOk result (λ o. BeginAsRaised K.raise_gives keepers.items o.journals.items) }
    ensures opened { IfOk result (λ o. OpenAsTold K.kept_gives plant.now.value keepers.items o.journals.items) }
    ensures of_plant { IfOk result (λ o. AreOfPlant plant.now.value o.book.entries) }
    ensures kept { IfOk result (λ o. KeepAllLeft K.last K.kept_gives plant.now.value o.faults.items o.keepers.items o.journals.items) }
    ensures fault { IfErr result IsThreadsFault }
    ensures refused { IfErr result (OneMayRefuse K.raise_gives K.kept_gives plant.now.value keepers.items) }
    ensures may { OnOk result (FirstMayRaise K.raise_gives keepers.items) }
    ensures later { IfErr result (ComesAfterFirst K.raise_gives keepers.items) }
{
    let (raised, firsts) = raise_all(alloc, plant, keepers)?;
    let workers = make_workers(
        alloc,
        plant,
        raised,
        firsts.as_slice(),
        max_number,
        commands,
    )?;
    let (doors, inboxes) = make_inboxes(alloc, plant.resources())?;
    let empty: PlantBook<P> = PlantBook::new(alloc, firsts.as_slice())?;
    let book = Mutex::new(empty);
    let mut noted = Noted::with_room(alloc, commands.len())?;
    let desk = Desk {
        plant: &**plant,
        firsts: firsts.as_slice(),
        commands,
        book: &book,
        gate,
        doors: doors.as_slice(),
    };
    let ended = run_scoped(
        rt,
        alloc,
        desk,
        inboxes.as_slice(),
        workers,
        max_number,
        &mut noted,
    )?;
    let Parted {
        journals,
        keepers,
        faults,
    } = part(alloc, ended, noted)?;
    Ok(Outcome {
        book: book.into_inner().into_book(),
        journals,
        keepers,
        faults,
    })
}

/// Runs the commands in one thread for each resource, whose tasks begin with what its keeper has kept, and joins the threads. Each journal is lawful for the plant, the journals' first incarnations and the limit, and begins above what its keeper held. Each entry of the book is by the plant's code of its task. Each keeper keeps what its resource left.
pub fn run_all<R: Threads + Wait + Sync, K: Keeper, G: Gate>(
    rt: &R,
    alloc: Global,
    plant: &Arc<Plant>,
    commands: &[Command],
    keepers: Vec<K>,
    gate: &G,
    max_number: u32,
) -> Result<Outcome<K>, RunFault>
    requires { length keepers.items ≡ length plant.now.value.resources }
    ensures lawful { IfOk result (λ o. All (IsLawful plant.now.value (firsts_of o.journals.items) max_number) o.journals.items) }
    ensures begun { IfOk result (λ o. BeginAbove K.last keepers.items o.journals.items) }
    ensures given { IfOk result (λ o. BeginAsRaised K.raise_gives keepers.items o.journals.items) }
    ensures opened { IfOk result (λ o. OpenAsTold K.kept_gives plant.now.value keepers.items o.journals.items) }
    ensures of_plant { IfOk result (λ o. AreOfPlant plant.now.value o.book.entries) }
    ensures kept { IfOk result (λ o. KeepAllLeft K.last K.kept_gives plant.now.value o.faults.items o.keepers.items o.journals.items) }
    ensures fault { IfErr result IsThreadsFault }
    ensures refused { IfErr result (OneMayRefuse K.raise_gives K.kept_gives plant.now.value keepers.items) }
    ensures may { OnOk result (FirstMayRaise K.raise_gives keepers.items) }
    ensures later { IfErr result (ComesAfterFirst K.raise_gives keepers.items) }
{
    run_for::<Brand, R, K, G>(rt, alloc, plant, commands, keepers, gate, max_number)
}
