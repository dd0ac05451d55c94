use crate::journal::Journal;
use crate::station::Station;
use crate::step::Step;
use evaluation::Frame;
use exchange_core::Core;
use std::marker::Model;

/// A resource that has made an evaluation, which its journal hasn't got yet. The journal is lawful, with that evaluation and without it.
#[derive(Drop)]
pub struct PendingEvaluation {
    core: Core,
    journal: Journal,
    made: Frame,
}

impl Model for PendingEvaluation {
    ghost use Rattle.node_reports.specs.Stations.{PendingValue};
    ghost use Rattle.node_reports.specs.Steps.Standing.{IsAhead};

    ghost Value = { PendingValue };

    ghost view = { λ p. record { core = p.core; journal = p.journal; made = p.made } };

    ghost invariant = { λ p. IsAhead p.core p.journal p.made };
}

ghost use Rattle.std.specs.Prelude.{◌≡◌, IfOk, IfErr, reverse};
ghost use Rattle.node_reports.specs.Codes.{IsOfPlant};
ghost use Rattle.node_reports.specs.Journals.{incarnation_after, IsLawful};
ghost use Rattle.node_reports.specs.Stations.{IsNoted};
ghost use Rattle.node_reports.specs.Steps.Standing.{IsAhead};

impl PendingEvaluation {
    /// A resource whose core has made this evaluation.
    pub(crate) fn of(core: Core, journal: Journal, made: Frame) -> PendingEvaluation
        requires { IsAhead core journal made }
        ensures { result ≡ record { core = core; journal = journal; made = made } }
    {
        PendingEvaluation {
            core,
            journal,
            made,
        }
    }

    /// The evaluation that was made.
    #[tactic(auto, using(crate::proofs::Stations::ahead_own))]
    pub fn frame(&self) -> &Frame
        ensures value { result.now ≡ self.now.made }
        ensures of_plant { IsOfPlant self.now.core.plant self.now.made }
        ensures own { self.now.made.name.task.resource ≡ self.now.journal.resource }
    {
        &self.made
    }

    /// Notes the evaluation as made. Where the journal has no room it comes back as it was, and the resource can't go on.
    #[tactic(auto, using(crate::proofs::Stations::ahead_present))]
    pub fn note(self) -> Result<Station, Journal>
        ensures noted { IfOk result (λ s. IsNoted self s) }
        ensures same { IfErr result (λ j. j ≡ self.journal) }
        ensures lawful { IfErr result (λ j. IsLawful self.core.plant self.core.first self.core.max_number j) }
        ensures present { IfErr result (λ j. incarnation_after j.first (reverse j.steps) ≡ self.core.incarnation) }
    {
        let PendingEvaluation {
            core,
            mut journal,
            made,
        } = self;
        match journal.steps.push(Step::Made(made)) {
            Ok(()) => Ok(Station::of(core, journal)),
            Err(_) => Err(journal),
        }
    }

    /// The journal without the evaluation. It is lawful, but the resource can't go on.
    #[tactic(auto, using(crate::proofs::Stations::ahead_present))]
    pub fn give_up(self) -> Journal
        ensures same { result ≡ self.journal }
        ensures lawful { IsLawful self.core.plant self.core.first self.core.max_number result }
        ensures present { incarnation_after result.first (reverse result.steps) ≡ self.core.incarnation }
    {
        self.journal
    }
}
