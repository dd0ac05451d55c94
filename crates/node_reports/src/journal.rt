ghost use Rattle.std.specs.Prelude.{◌≡◌, IfOk, OnOk, OnErr};
ghost use Rattle.exchange_core.specs.CoreValue.{IsAccepted, HasHeard};
ghost use Rattle.node_reports.specs.declared.step.Step.TheVariants.{Took, Heard};
ghost use Rattle.node_reports.specs.Journals.{fresh_journal, with_step};

use crate::opening::Opening;
use crate::step::Step;
use crate::steps::Steps;
use evaluation::Frame;
use exchange_core::{Accepted, Core};
use std::alloc::{AllocError, Global};

/// What one resource did since its first incarnation, step by step.
#[derive(Drop)]
pub struct Journal {
    pub resource: usize,
    pub first: u32,
    /// What its tasks began with.
    pub opening: Opening,
    pub steps: Steps,
}

impl Journal {
    /// A journal without steps.
    pub fn new(alloc: Global, resource: usize, first: u32, opening: Opening) -> Journal
        ensures { result ≡ fresh_journal resource first opening }
    {
        Journal {
            resource,
            first,
            opening,
            steps: Steps::new(alloc),
        }
    }

    /// Notes an evaluation as received, hands it to the core, and answers what the core answers. Without memory the journal and the core stay, and the evaluation is lost.
    pub fn take(&mut self, core: &mut Core, frame: Frame) -> Result<Accepted, AllocError>
        ensures core { IfOk result (λ answer. IsAccepted core.old core.new frame answer) }
        ensures journal { OnOk result (self.new ≡ with_step self.old (Took frame)) }
        ensures err { OnErr result ((core.new ≡ core.old) × (self.new ≡ self.old)) }
    {
        let copy = frame.try_clone()?;
        self.steps.push(Step::Took(copy))?;
        Ok(core.accept(frame))
    }

    /// Notes that a resource was heard to be in an incarnation, tells the core, and answers what the core answers. Without memory the journal and the core stay, and the news is lost.
    pub fn hear(&mut self, core: &mut Core, of: usize, incarnation: u32) -> Result<bool, AllocError>
        ensures core { IfOk result (λ answer. HasHeard core.old core.new of incarnation answer) }
        ensures journal { OnOk result (self.new ≡ with_step self.old (Heard of incarnation)) }
        ensures err { OnErr result ((core.new ≡ core.old) × (self.new ≡ self.old)) }
    {
        self.steps.push(Step::Heard {
            resource: of,
            incarnation,
        })?;
        Ok(core.hear(of, incarnation))
    }
}
