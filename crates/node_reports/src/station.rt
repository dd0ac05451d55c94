mod pending_evaluation;

use crate::journal::Journal;
use crate::opening::Opening;
use crate::step::Step;
use evaluation::{Frame, Inputs};
use exchange_core::{Accepted, Core, CoreFault, EvalFault, RestartFault};
pub use pending_evaluation::PendingEvaluation;
use plant::Plant;
use std::alloc::{AllocError, Global};
use std::marker::Model;
use std::sync::Arc;

/// One resource while it runs: its core, and its journal. The journal is lawful, and the core stands where the journal has come to.
#[derive(Drop)]
pub struct Station {
    core: Core,
    journal: Journal,
}

impl Model for Station {
    ghost use Rattle.node_reports.specs.Stations.{StationValue};
    ghost use Rattle.node_reports.specs.Steps.Standing.{IsStation};

    ghost Value = { StationValue };

    ghost view = { λ s. record { core = s.core; journal = s.journal } };

    ghost invariant = { λ s. IsStation s.core s.journal };
}

ghost use Rattle.std.specs.Prelude.{◌≡◌, ◌<◌, IfOk, IfErr, OnErr, length, reverse};
ghost use Rattle.exchange_core.specs.CoreValue.{AreOpeningOf, IsCoreFault, IsEvalFault};
ghost use Rattle.node_reports.specs.Journals.{incarnation_after, IsLawful};
ghost use Rattle.node_reports.specs.Stations.{fresh_station, IsReceived, IsTold, IsPending, IsRestarted};
ghost use Rattle.node_reports.specs.Steps.Standing.{IsStation};

impl Station {
    /// A resource in its first incarnation. It holds nothing, each of its tasks begins with its part of the opening, and its journal has no steps. The numbers of its evaluations go up to `max_number`.
    pub fn new(
        alloc: Global,
        plant: Arc<Plant>,
        resource: usize,
        first: &[u32],
        opening: Opening,
        max_number: u32,
    ) -> Result<Station, CoreFault>
        requires first { resource < length plant.value.resources → length first.now ≡ length plant.value.resources }
        requires opening { resource < length plant.value.resources → AreOpeningOf plant.value resource opening }
        ensures ok { IfOk result (λ s. s ≡ fresh_station plant.value resource first.now opening max_number) }
        ensures fault { IfErr result (IsCoreFault plant.value resource) }
    {
        // The getter hands out that the plant is sound.
        let _resources = plant.resources();
        let core = Core::new(
            alloc,
            plant,
            resource,
            first,
            opening.as_slice(),
            max_number,
        )?;
        Ok(Station {
            core,
            journal: Journal::new(alloc, resource, first[resource], opening),
        })
    }

    /// A resource of a core and the journal that has come to where the core stands.
    pub(crate) fn of(core: Core, journal: Journal) -> Station
        requires { IsStation core journal }
        ensures { result ≡ record { core = core; journal = journal } }
    {
        Station { core, journal }
    }

    /// Receives an evaluation. Without memory it is lost, and the resource is as before.
    pub fn receive(&mut self, frame: Frame) -> Result<Accepted, AllocError>
        ensures ok { IfOk result (λ answer. IsReceived self.old self.new frame answer) }
        ensures err { OnErr result (self.new ≡ self.old) }
    {
        self.journal.take(&mut self.core, frame)
    }

    /// Hears that a resource is in an incarnation. Without memory the news is lost, and the resource is as before.
    pub fn hear(&mut self, of: usize, incarnation: u32) -> Result<bool, AllocError>
        ensures ok { IfOk result (λ answer. IsTold self.old self.new of incarnation answer) }
        ensures err { OnErr result (self.new ≡ self.old) }
    {
        self.journal.hear(&mut self.core, of, incarnation)
    }

    /// The core, which tells what would be answered next.
    pub fn core(&self) -> &Core
        ensures { result.now ≡ self.now.core }
    {
        &self.core
    }

    /// The resource.
    pub fn resource(&self) -> usize
        ensures { result ≡ self.now.journal.resource }
    {
        self.journal.resource
    }

    /// The present incarnation.
    pub fn incarnation(&self) -> u32
        ensures { result ≡ self.now.core.incarnation }
    {
        self.core.incarnation()
    }

    /// Evaluates a task, `dt` milliseconds after its evaluation before. The journal has room for it, but hasn't got it yet. After a fault the resource is as before.
    pub fn evaluate(
        self,
        alloc: Global,
        ticket: u64,
        task: usize,
        dt: u32,
        inputs: &Inputs,
    ) -> Result<PendingEvaluation, (Station, EvalFault)>
        ensures made { IfOk result (λ p. IsPending self p ticket task dt inputs.now) }
        ensures same { IfErr result (λ e. e.0 ≡ self) }
        ensures fault { IfErr result (λ e. IsEvalFault self.core task e.1) }
    {
        let mut station = self;
        if let Err(fault) = station.core.next_number(task) {
            return Err((station, fault));
        }
        if station.make_room().is_err() {
            return Err((station, EvalFault::Memory));
        }
        let Station { mut core, journal } = station;
        match core.evaluate(alloc, ticket, task, dt, inputs) {
            Ok(frame) => Ok(PendingEvaluation::of(core, journal, frame)),
            Err(fault) => Err((Station { core, journal }, fault)),
        }
    }

    /// Makes room for one more step of the journal.
    pub fn make_room(&mut self) -> Result<(), AllocError>
        ensures { self.new ≡ self.old }
    {
        self.journal.steps.make_room()
    }

    /// The resource in a greater incarnation: it holds nothing, and of each of its tasks the retained variables alone are as they were. Without memory it comes back as it was.
    pub fn restart(
        self,
        alloc: Global,
        ticket: u64,
        incarnation: u32,
    ) -> Result<Station, (Station, RestartFault)>
        requires { self.core.incarnation < incarnation }
        ensures ok { IfOk result (λ s. IsRestarted self s ticket incarnation) }
        ensures err { IfErr result (λ e. e.0 ≡ self) }
    {
        let Station { core, mut journal } = self;
        let count = journal.steps.len();
        let step = Step::Restarted {
            ticket,
            incarnation,
        };
        let Ok(()) = journal.steps.push(step) else {
            return Err((Station { core, journal }, RestartFault::Memory));
        };
        match core.restart(alloc, incarnation) {
            Ok(core) => Ok(Station { core, journal }),
            Err((core, fault)) => {
                journal.steps.truncate(count);
                Err((Station { core, journal }, fault))
            }
        }
    }

    /// The journal, which is lawful.
    #[tactic(auto, using(crate::proofs::Stations::station_present))]
    pub fn into_journal(self) -> Journal
        ensures same { result ≡ self.journal }
        ensures lawful { IsLawful self.core.plant self.core.first self.core.max_number result }
        ensures present { incarnation_after result.first (reverse result.steps) ≡ self.core.incarnation }
    {
        let Station { core: _, journal } = self;
        journal
    }
}
