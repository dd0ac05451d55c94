use crate::fill::fill_programs;
use crate::image::Image;
use crate::inputs::Inputs;
use crate::message::Message;
use crate::name::Name;
use crate::outputs::read_outputs;
use crate::scan::scan_programs;
use crate::take::{Take, are_same_takes};
use crate::task_state::{TaskState, copied};
use std::alloc::{AllocError, Global};
use std::marker::Model;
use std::sync::Arc;
use task_codes::TaskCode;

/// One evaluation of a task: what it was asked, what it took, the state before, what it gave, and the state after. It does not change.
#[derive(Drop)]
pub struct Evaluation {
    ticket: u64,
    /// Its name, what its maker had heard, and what it gave.
    message: Message,
    dt: u32,
    inputs: Inputs,
    takes: Vec<Take>,
    before: TaskState,
    after: TaskState,
    code: Arc<TaskCode>,
}

impl Model for Evaluation {
    ghost use Rattle.evaluation.specs.Meaning.{Evaluated, IsMeant, IsWhole, evaluated};

    ghost Value = { Evaluated };

    ghost view = { λ e. evaluated e.ticket e.message.name e.message.heard e.dt e.inputs e.takes.items e.before e.code.value e.message.image e.after };

    ghost invariant = { λ e.
        IsMeant (evaluated e.ticket e.message.name e.message.heard e.dt e.inputs e.takes.items e.before e.code.value e.message.image e.after)
        × IsWhole (evaluated e.ticket e.message.name e.message.heard e.dt e.inputs e.takes.items e.before e.code.value e.message.image e.after) };
}

ghost use Rattle.std.specs.Prelude.{◌≡◌, ◌↔◌, IsTrue, IfOk, Some, map, slice_get};
ghost use Rattle.declared_names.specs.Kinds.{kind_of};
ghost use Rattle.task_codes.specs.CodeValue.{image_kinds};
ghost use Rattle.evaluation.specs.Takes.{AreTakesOf};
ghost use Rattle.evaluation.specs.States.{AreStatesOf};
ghost use Rattle.evaluation.specs.Meaning.{Means, IsMeant, IsWhole, IsAsked};
ghost use Rattle.evaluation.specs.Heard.{is_addressed};
ghost use Rattle.evaluation.specs.Messages.{message_of};
ghost use Rattle.evaluation.specs.Steps.Contents.{HaveSameContents};

/// What a code, run on these inputs and takes, `dt` milliseconds after the evaluation before, gives and leaves: the outputs and the state after.
#[tactic(auto, unfolding(crate::specs::Meaning::Means))]
pub fn outcome(
    alloc: Global,
    code: &TaskCode,
    inputs: &Inputs,
    takes: &[Take],
    dt: u32,
    before: &TaskState,
) -> Result<(Image, TaskState), AllocError>
    requires fits { AreStatesOf code.now before.now }
    requires suits { AreTakesOf code.now takes.now }
    ensures meant { IfOk result (λ r. Means code.now inputs.now takes.now dt before.now r.0 r.1) }
    ensures fits { IfOk result (λ r. AreStatesOf code.now r.1) }
    ensures kinds { IfOk result (λ r. map kind_of r.0 ≡ image_kinds code.now) }
{
    let mut after = copied(alloc, before.states())?;
    fill_programs(code, inputs, takes, after.as_mut_slice());
    scan_programs(code, after.as_mut_slice(), dt);
    let outputs = read_outputs(alloc, code, after.as_slice())?;
    let after = before.shared_or_of(alloc, after)?;
    Ok((outputs, after))
}

impl Evaluation {
    /// Evaluates a task: its outputs and the state after are computed here, and nowhere else. `dt` is the elapsed time in milliseconds.
    pub fn make(
        alloc: Global,
        ticket: u64,
        name: Name,
        heard: Vec<u32>,
        dt: u32,
        inputs: Inputs,
        takes: Vec<Take>,
        before: TaskState,
        code: Arc<TaskCode>,
    ) -> Result<Evaluation, AllocError>
        requires fits { AreStatesOf code.value before }
        requires suits { AreTakesOf code.value takes.items }
        requires own { slice_get heard.items name.task.resource ≡ Some name.incarnation }
        ensures { IfOk result (λ e. IsAsked ticket name heard.items dt inputs takes.items before code.value e) }
    {
        let (outputs, after) = outcome(alloc, &code, &inputs, takes.as_slice(), dt, &before)?;
        let message = Message::of(alloc, name, heard, outputs)?;
        Ok(Evaluation {
            ticket,
            message,
            dt,
            inputs,
            takes,
            before,
            after,
            code,
        })
    }

    /// The ticket by which it was asked.
    pub fn ticket(&self) -> u64
        ensures { result ≡ self.now.ticket }
    {
        self.ticket
    }

    /// What of it goes to other resources.
    pub fn message(&self) -> &Message
        ensures { result.now ≡ message_of self.now }
    {
        &self.message
    }

    /// Its name.
    pub fn name(&self) -> Name
        ensures { result ≡ self.now.name }
    {
        self.message.name()
    }

    /// Of which incarnation of each resource its maker had heard, one number for each resource. Of the own resource it is the name's.
    pub fn heard(&self) -> &[u32]
        ensures value { result.now ≡ self.now.heard }
        ensures whole { IsWhole self.now }
    {
        self.message.heard()
    }

    /// Whether it is addressed to this incarnation of a resource: whether that is the one of which its maker had heard.
    pub fn is_addressed(&self, resource: usize, incarnation: u32) -> bool
        ensures { result ≡ is_addressed self.now resource incarnation }
    {
        self.message.is_addressed(resource, incarnation)
    }

    /// The time since the evaluation before, in milliseconds.
    pub fn dt(&self) -> u32
        ensures { result ≡ self.now.dt }
    {
        self.dt
    }

    /// The field inputs.
    pub fn inputs(&self) -> &Inputs
        ensures { result.now ≡ self.now.inputs }
    {
        &self.inputs
    }

    /// What it took from each producer, in order.
    pub fn takes(&self) -> &[Take]
        ensures value { result.now ≡ self.now.takes }
        ensures whole { IsWhole self.now }
    {
        self.takes.as_slice()
    }

    /// The state before.
    pub fn before(&self) -> &TaskState
        ensures value { result.now ≡ self.now.before }
        ensures whole { IsWhole self.now }
    {
        &self.before
    }

    /// What it gave.
    pub fn outputs(&self) -> &Image
        ensures value { result.now ≡ self.now.outputs }
        ensures meant { IsMeant self.now }
        ensures whole { IsWhole self.now }
    {
        self.message.image()
    }

    /// The state after.
    pub fn after(&self) -> &TaskState
        ensures value { result.now ≡ self.now.after }
        ensures meant { IsMeant self.now }
        ensures whole { IsWhole self.now }
    {
        &self.after
    }

    /// The code that was run.
    pub fn code(&self) -> &Arc<TaskCode>
        ensures { result.now.value ≡ self.now.code }
    {
        &self.code
    }

    /// Whether both are equal.
    pub fn same(&self, other: &Self) -> bool
        ensures { IsTrue result ↔ (self.now ≡ other.now) }
    {
        self.has_same_contents(other)
    }

    /// Whether both have the same contents. Places for a scan to work in do not count.
    fn has_same_contents(&self, other: &Self) -> bool
        ensures contents { IsTrue result ↔ HaveSameContents self.now other.now }
        ensures whole { IsWhole self.now × IsWhole other.now }
    {
        self.ticket == other.ticket
            && self.message.same(&other.message)
            && self.dt == other.dt
            && self.inputs.same(&other.inputs)
            && are_same_takes(self.takes.as_slice(), other.takes.as_slice())
            && self.before.same(&other.before)
            && self.after.same(&other.after)
            && self.code.same(&other.code)
    }
}
