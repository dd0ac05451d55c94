use crate::evaluation::Evaluation;
use crate::image::Image;
use crate::message::Message;
use crate::name::Name;
use std::alloc::{AllocError, Global};
use std::marker::Model;
use std::sync::Arc;

/// A shared evaluation, as it is exchanged. It does not change.
#[derive(Drop)]
pub struct Frame {
    shared: Arc<Evaluation>,
}

impl Model for Frame {
    ghost use Rattle.evaluation.specs.Meaning.{Evaluated};

    ghost Value = { Evaluated };

    ghost view = { λ f. f.shared.value };
}

ghost use Rattle.std.specs.Prelude.{◌≡◌, ◌↔◌, IsTrue, IfOk};
ghost use Rattle.evaluation.specs.Meaning.{IsMeant, IsWhole};
ghost use Rattle.evaluation.specs.Messages.{message_of};

impl Frame {
    /// A frame of an evaluation.
    pub fn new(alloc: Global, evaluation: Evaluation) -> Result<Frame, AllocError>
        ensures { IfOk result (λ f. f ≡ evaluation) }
    {
        Ok(Frame {
            shared: Arc::new(alloc, evaluation)?,
        })
    }

    /// One more share of the same evaluation.
    pub fn try_clone(&self) -> Result<Frame, AllocError>
        ensures { IfOk result (λ f. f ≡ self.now) }
    {
        Ok(Frame {
            shared: Arc::try_clone(&self.shared)?,
        })
    }

    /// The evaluation.
    pub fn evaluation(&self) -> &Evaluation
        ensures { result.now ≡ self.now }
    {
        &*self.shared
    }

    /// What of the evaluation goes to other resources.
    pub fn message(&self) -> &Message
        ensures { result.now ≡ message_of self.now }
    {
        self.shared.message()
    }

    /// The evaluation's name.
    pub fn name(&self) -> Name
        ensures { result ≡ self.now.name }
    {
        self.shared.name()
    }

    /// What the evaluation gave: the meaning of its own code on its own inputs, takes, elapsed time and state before.
    pub fn outputs(&self) -> &Image
        ensures value { result.now ≡ self.now.outputs }
        ensures meant { IsMeant self.now }
        ensures whole { IsWhole self.now }
    {
        self.shared.outputs()
    }

    /// Whether both share evaluations that are equal.
    pub fn same(&self, other: &Self) -> bool
        ensures { IsTrue result ↔ (self.now ≡ other.now) }
    {
        self.shared.same(&other.shared)
    }
}
