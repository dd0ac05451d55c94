use crate::accepted::Accepted;
use crate::core_fault::CoreFault;
use crate::eval_fault::EvalFault;
use crate::message_core::MessageCore;
use crate::restart_fault::RestartFault;
use evaluation::{Frame, Inputs, Retained, taken_alike};
use plant::Plant;
use std::alloc::{AllocError, Global};
use std::marker::Model;
use std::sync::Arc;
use task_codes::TaskRef;

/// One resource of a plant: what it holds of other tasks, and what its own made last.
#[derive(Drop)]
pub struct Core {
    /// It holds evaluations as a whole, and no message alone.
    inner: MessageCore,
}

impl Model for Core {
    ghost use Rattle.exchange_core.specs.CoreValue.{CoreValue};
    ghost use Rattle.exchange_core.specs.Wholes.{core_in, AreWhole};

    ghost Value = { CoreValue };

    ghost view = { λ c. core_in c.inner };

    ghost invariant = { λ c. AreWhole c.inner.table };
}

ghost use Rattle.std.specs.Prelude.{◌≡◌, ◌≢◌, ◌+◌, ◌<◌, IfOk, IfErr, OnOk, OnErr, Some, length, slice_index};
ghost use Rattle.std.specs.Option.{option_copied};
ghost use Rattle.evaluation.specs.Last.{last_number};
ghost use Rattle.exchange_core.specs.Openings.{AreOpeningOf, IsCoreFault};
ghost use Rattle.exchange_core.specs.CoreValue.{fresh_core, IsRestartOf, IsAccepted, HasHeard, IsNext, IsDue, IsEvalFault, held_of, own_last};
ghost use Rattle.exchange_core.specs.Wholes.{core_in, AreWhole};
ghost use Rattle.exchange_core.specs.declared.accepted.Accepted.TheVariants.{Taken};
ghost use Rattle.exchange_core.specs.declared.eval_fault.EvalFault.TheVariants.{Memory};

impl Core {
    /// A core of a resource in its first incarnation. It holds nothing, each of its tasks begins with its opening, and of each other resource it has heard the first incarnation.
    /// `first` has the first incarnation of each resource, `opening` what each task of this one begins with. The numbers of its evaluations go up to `max_number`.
    pub fn new(
        alloc: Global,
        plant: Arc<Plant>,
        resource: usize,
        first: &[u32],
        opening: &[Retained],
        max_number: u32,
    ) -> Result<Core, CoreFault>
        requires first { resource < length plant.value.resources → length first.now ≡ length plant.value.resources }
        requires opening { resource < length plant.value.resources → AreOpeningOf plant.value resource opening.now }
        ensures ok { IfOk result (λ c. c ≡ fresh_core plant.value resource first.now (slice_index first.now resource) opening.now max_number) }
        ensures exists { OnOk result (resource < length plant.value.resources) }
        ensures fault { IfErr result (IsCoreFault plant.value resource) }
    {
        let inner = MessageCore::new(alloc, plant, resource, first, opening, max_number)?;
        Ok(Core { inner })
    }

    /// The core of a greater incarnation: it holds nothing, of each of its tasks the retained variables alone are as they were, and of each other resource it has heard the first incarnation.
    /// Without memory the core comes back as it was.
    pub fn restart(self, alloc: Global, incarnation: u32) -> Result<Core, (Core, RestartFault)>
        requires { self.incarnation < incarnation }
        ensures ok { IfOk result (λ c. IsRestartOf self c incarnation) }
        ensures err { IfErr result (λ e. e.0 ≡ self) }
    {
        match self.restarted(alloc, incarnation) {
            Ok(core) => Ok(core),
            Err(_) => Err((self, RestartFault::Memory)),
        }
    }

    /// The core that this one becomes by a restart in that incarnation. This one stays as it is.
    pub fn restarted(&self, alloc: Global, incarnation: u32) -> Result<Core, AllocError>
        ensures { IfOk result (λ c. IsRestartOf self.now c incarnation) }
    {
        let inner = self.inner.restarted(alloc, incarnation)?;
        Ok(Core { inner })
    }

    /// Hears that a resource is in an incarnation. The answer is true, and the incarnation is kept, where it is of another resource that exists and greater than the one heard of before; else nothing changes. No memory is needed.
    pub fn hear(&mut self, of: usize, incarnation: u32) -> bool
        ensures { HasHeard self.old self.new of incarnation result }
    {
        self.inner.hear(of, incarnation)
    }

    /// Takes in an evaluation of another resource's task, if it is of use here, addressed to the present incarnation, and newer than what is held of that task. Its place was made by `new`.
    pub fn accept(&mut self, frame: Frame) -> Accepted
        ensures answer { IsAccepted self.old self.new frame result }
        ensures held { result ≡ Taken → held_of self.new frame.name.task ≡ Some frame }
    {
        self.inner.accept_frame(frame)
    }

    /// Evaluates a task of the resource, `dt` milliseconds after its evaluation before: from what is held of other tasks and what the resource's own made last.
    /// NoSuchTask: the resource has no task at this position. NumbersSpent: the task's last number in this incarnation is the greatest one.
    /// Memory: neither holds, and there was no memory left.
    pub fn evaluate(
        &mut self,
        alloc: Global,
        ticket: u64,
        task: usize,
        dt: u32,
        inputs: &Inputs,
    ) -> Result<Frame, EvalFault>
        ensures made { IfOk result (λ f. IsNext self.old self.new ticket task dt inputs.now f) }
        ensures err { OnErr result (self.new ≡ self.old) }
        ensures fault { IfErr result (IsEvalFault self.old task) }
    {
        taken_alike();
        self.inner.evaluate(alloc, ticket, task, dt, inputs)
    }

    /// The number of the next evaluation of a task of the resource; else the first cause why there can't be one. No memory is needed.
    pub fn next_number(&self, task: usize) -> Result<u32, EvalFault>
        ensures due { OnOk result (IsDue self.now task) }
        ensures number { IfOk result (λ n. n ≡ last_number (own_last self.now task) + 1) }
        ensures fault { IfErr result (IsEvalFault self.now task) }
        ensures lasting { IfErr result (λ f. f ≢ Memory) }
    {
        self.inner.next_number(task)
    }

    /// What is held of a task of another resource.
    pub fn held(&self, task: TaskRef) -> Option<&Frame>
        ensures { option_copied result ≡ held_of self.now task }
    {
        self.inner.whole_held(task)
    }

    /// The same core over messages: what is asked of it is asked of this one.
    pub fn messages(&self) -> &MessageCore
        ensures same { core_in result.now ≡ self.now }
        ensures whole { AreWhole result.now.table }
    {
        &self.inner
    }

    /// Of which incarnation of each resource it has heard, one number for each resource; of its own its incarnation.
    pub fn heard(&self) -> &[u32]
        ensures { result.now ≡ self.now.heard }
    {
        self.inner.heard()
    }

    /// The incarnation.
    pub fn incarnation(&self) -> u32
        ensures { result ≡ self.now.incarnation }
    {
        self.inner.incarnation()
    }
}
