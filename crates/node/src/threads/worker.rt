use crate::threads::ended::Ended;
use crate::threads::entered::Entered;
use crate::threads::entering::enter_pending;
use crate::threads::hello::Hello;
use crate::threads::noted::Noted;
use crate::threads::of_plant::OfPlant;
use crate::threads::plant_book::PlantBook;
use crate::threads::raised::Raised;
use crate::threads::restarting::restart_station;
use crate::threads::worker_state::WorkerState;
use evaluation::{Frame, Inputs};
use keepers::Keeper;
use node_reports::{Cause, RunFault, Station};
use plant::Plant;
use std::alloc::Global;
use std::marker::Model;
use std::snapshot::Snapshot;
use std::sync::{Arc, Mutex, Wait};

/// A resource in its thread: its keeper, what it does until it is stopped, and the faults of its commands. The keeper keeps what the resource leaves.
#[derive(Drop)]
pub(crate) struct Worker<K: Keeper> {
    plant: Arc<Plant>,
    /// Of each resource the first incarnation.
    firsts: Vec<u32>,
    max_number: u32,
    first: u32,
    keeper: K,
    state: WorkerState,
    noted: Noted,
}

impl<K: Keeper> Model for Worker<K> {
    ghost use Rattle.std.specs.Prelude.{◌≡◌};
    ghost use Rattle.node.specs.Steps.Keeping.{Keeps};
    ghost use Rattle.node.specs.Steps.States.{IsWorking, journal_of};
    ghost use Rattle.node.specs.Steps.Working.{WorkerValue};

    ghost Value = { WorkerValue };

    ghost view = { λ w. record { plant = w.plant.value; firsts = w.firsts.items; max_number = w.max_number; first = w.first; opening = (journal_of w.state).opening } };

    ghost invariant = { λ w. IsWorking w.plant.value w.firsts.items w.max_number (K.last w.keeper) w.state
        × ((journal_of w.state).first ≡ w.first)
        × Keeps (K.last w.keeper) (K.kept_gives w.keeper) w.plant.value w.noted (journal_of w.state) };
}

ghost use Rattle.std.specs.Prelude.{◌≡◌, ◌<◌, IfOk, IfErr, length, slice_index};
ghost use Rattle.node_reports.specs.declared.run_fault.RunFault.TheVariants.{Memory};
ghost use Rattle.keepers.specs.Openings.{TellsOpening};
ghost use Rattle.exchange_core.specs.CoreValue.{AreOpeningOf};
ghost use Rattle.node_reports.specs.Journals.{IsLawful};
ghost use Rattle.node.specs.Steps.Keeping.{IsLeftKept};
ghost use Rattle.node.specs.Steps.States.{journal_of};

impl<K: Keeper> Worker<K> {
    /// A resource in its first incarnation, which its keeper has just raised, with what was kept of its tasks, and room for so many faults. `firsts` has the first incarnation of each resource.
    #[tactic(auto, using(crate::proofs::Kept::keeps_fresh))]
    pub fn new(
        alloc: Global,
        plant: &Arc<Plant>,
        resource: usize,
        raised: Raised<K>,
        firsts: &[u32],
        max_number: u32,
        room: usize,
    ) -> Result<Worker<K>, RunFault>
        requires many { length firsts.now ≡ length plant.now.value.resources }
        requires exists { resource < length firsts.now }
        requires raised { K.last raised.keeper ≡ slice_index firsts.now resource }
        requires opened { AreOpeningOf plant.now.value resource raised.opening }
        requires told { TellsOpening (K.kept_gives raised.keeper) plant.now.value resource raised.opening }
        ensures fault { IfErr result (λ fault. fault ≡ Memory) }
        ensures made { IfOk result (λ w. w ≡ record { plant = plant.now.value; firsts = firsts.now; max_number = max_number; first = slice_index firsts.now resource; opening = raised.opening }) }
    {
        let Raised { keeper, opening } = raised;
        let shared = Arc::try_clone(plant)?;
        // The resource exists, so what is wanting is memory.
        let Ok(station) = Station::new(alloc, shared, resource, firsts, opening, max_number) else {
            return Err(RunFault::Memory);
        };
        Ok(Worker {
            plant: Arc::try_clone(plant)?,
            firsts: Vec::from_slice(alloc, firsts)?,
            max_number,
            first: firsts[resource],
            keeper,
            state: WorkerState::Running(station),
            noted: Noted::with_room(alloc, room)?,
        })
    }

    /// Its first incarnation.
    pub fn first(&self) -> u32
        ensures { result ≡ self.now.first }
    {
        self.first
    }

    /// In what state it began, for what is promised of it before it does anything.
    pub fn began(&self) -> Snapshot<WorkerState>
        ensures { (journal_of result.value).opening ≡ self.now.opening }
    {
        Snapshot::of(&self.state)
    }

    /// For how many faults there is room.
    pub fn room(&self) -> usize {
        self.noted.room()
    }

    /// Whether it obeys no more.
    pub fn is_stopped(&self) -> bool {
        match &self.state {
            WorkerState::Running(_) => false,
            WorkerState::Stopped(_) => true,
        }
    }

    /// Notes a fault of a command, if it is the first one of its ticket.
    #[tactic(auto, using(crate::proofs::Kept::keeps_more))]
    pub fn note(&mut self, resource: usize, ticket: u64, cause: Cause)
        ensures { self.new ≡ self.old }
    {
        self.noted.note(resource, ticket, cause);
    }

    /// Receives an evaluation. Without memory it is lost, and once the resource is stopped too.
    #[tactic(auto, using(crate::proofs::Kept::keeps_took))]
    pub fn receive(self, frame: Frame) -> Worker<K>
        ensures { result ≡ self }
    {
        let Worker {
            plant,
            firsts,
            max_number,
            first,
            keeper,
            state,
            noted,
        } = self;
        let state = match state {
            WorkerState::Running(mut station) => {
                let _answer = station.receive(frame);
                WorkerState::Running(station)
            }
            WorkerState::Stopped(journal) => WorkerState::Stopped(journal),
        };
        Worker {
            plant,
            firsts,
            max_number,
            first,
            keeper,
            state,
            noted,
        }
    }

    /// Hears in which incarnation another resource is, and answers whether that is news. Without memory it is lost, and once the resource is stopped too.
    #[tactic(auto, using(crate::proofs::Kept::keeps_heard))]
    pub fn hear(self, hello: Hello) -> (Worker<K>, bool)
        ensures { result.0 ≡ self }
    {
        let Worker {
            plant,
            firsts,
            max_number,
            first,
            keeper,
            state,
            noted,
        } = self;
        let (state, is_news) = match state {
            WorkerState::Running(mut station) => {
                let answer = station.hear(hello.resource, hello.incarnation);
                (WorkerState::Running(station), answer.unwrap_or(false))
            }
            WorkerState::Stopped(journal) => (WorkerState::Stopped(journal), false),
        };
        let worker = Worker {
            plant,
            firsts,
            max_number,
            first,
            keeper,
            state,
            noted,
        };
        (worker, is_news)
    }

    /// What it tells of itself, unless it is stopped.
    pub fn hello(&self) -> Option<Hello> {
        match &self.state {
            WorkerState::Running(station) => Some(Hello {
                resource: station.resource(),
                incarnation: station.incarnation(),
            }),
            WorkerState::Stopped(_) => None,
        }
    }

    /// Evaluates a task, enters the evaluation, and keeps the task's retained variables. Where it isn't entered, the resource is stopped.
    pub fn evaluate<R: Wait, P: OfPlant>(
        self,
        rt: &R,
        alloc: Global,
        book: &Mutex<PlantBook<P>>,
        ticket: u64,
        task: usize,
        dt: u32,
        inputs: &Inputs,
    ) -> (Worker<K>, Result<Entered, Cause>)
        requires { self.plant ≡ P.plant }
        ensures { result.0 ≡ self }
    {
        let Worker {
            plant,
            firsts,
            max_number,
            first,
            mut keeper,
            state,
            mut noted,
        } = self;
        let (state, answer) = match state {
            WorkerState::Stopped(journal) => (WorkerState::Stopped(journal), Err(Cause::Stopped)),
            WorkerState::Running(station) => {
                match station.evaluate(alloc, ticket, task, dt, inputs) {
                    Ok(pending) => {
                        enter_pending(rt, alloc, book, &mut keeper, &mut noted, pending)
                    }
                    Err((station, fault)) => (
                        WorkerState::Running(station),
                        Err(Cause::from(fault)),
                    ),
                }
            }
        };
        let worker = Worker {
            plant,
            firsts,
            max_number,
            first,
            keeper,
            state,
            noted,
        };
        (worker, answer)
    }

    /// Raises the incarnation, and restarts. Where the core isn't restarted, the resource is stopped.
    pub fn restart(self, alloc: Global, ticket: u64) -> (Worker<K>, Result<(), Cause>)
        ensures { result.0 ≡ self }
    {
        let Worker {
            plant,
            firsts,
            max_number,
            first,
            mut keeper,
            state,
            noted,
        } = self;
        let (state, answer) = match state {
            WorkerState::Stopped(journal) => (WorkerState::Stopped(journal), Err(Cause::Stopped)),
            WorkerState::Running(station) => restart_station(alloc, &mut keeper, station, ticket),
        };
        let worker = Worker {
            plant,
            firsts,
            max_number,
            first,
            keeper,
            state,
            noted,
        };
        (worker, answer)
    }

    /// What the resource did, the faults that were noted, and the keeper, which keeps what was left.
    pub fn into_ended(self) -> Ended<K>
        ensures lawful { IsLawful self.plant self.firsts self.max_number result.journal }
        ensures first { result.journal.first ≡ self.first }
        ensures opening { result.journal.opening ≡ self.opening }
        ensures keeps { IsLeftKept K.last K.kept_gives self.plant result }
    {
        let Worker {
            plant: _,
            firsts: _,
            max_number: _,
            first: _,
            keeper,
            state,
            noted,
        } = self;
        let journal = match state {
            WorkerState::Running(station) => station.into_journal(),
            WorkerState::Stopped(journal) => journal,
        };
        Ended {
            journal,
            noted,
            keeper,
        }
    }
}
