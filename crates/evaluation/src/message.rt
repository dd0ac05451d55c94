use crate::image::Image;
use crate::name::Name;
use lists::are_same_numbers;
use std::alloc::{AllocError, Global};
use std::marker::Model;
use std::sync::Arc;

/// What of an evaluation goes to other resources: its name, of which incarnation of each resource its maker had heard, and what it gave. It does not change, and copies share it.
#[derive(Drop)]
pub struct Message {
    parts: Arc<Parts>,
}

#[derive(Drop)]
struct Parts {
    name: Name,
    heard: Vec<u32>,
    image: Image,
}

impl Model for Message {
    ghost use Rattle.evaluation.specs.Messages.{MessageValue, message};

    ghost Value = { MessageValue };

    ghost view = { λ m. message m.parts.value.name m.parts.value.heard.items m.parts.value.image };
}

ghost use Rattle.std.specs.Prelude.{◌≡◌, ◌↔◌, IsTrue, IfOk};
ghost use Rattle.evaluation.specs.Heard.{addresses};
ghost use Rattle.evaluation.specs.Messages.{message, TakenAlike};

impl Message {
    /// A message of these parts. `heard` has one number for each resource.
    pub fn of(
        alloc: Global,
        name: Name,
        heard: Vec<u32>,
        image: Image,
    ) -> Result<Message, AllocError>
        ensures { IfOk result (λ m. m ≡ message name heard.items image) }
    {
        Ok(Message {
            parts: Arc::new(alloc, Parts { name, heard, image })?,
        })
    }

    /// One more share of the same message.
    pub fn try_clone(&self) -> Result<Message, AllocError>
        ensures { IfOk result (λ m. m ≡ self.now) }
    {
        Ok(Message {
            parts: Arc::try_clone(&self.parts)?,
        })
    }

    /// The evaluation's name.
    pub fn name(&self) -> Name
        ensures { result ≡ self.now.name }
    {
        self.parts.name
    }

    /// Of which incarnation of each resource its maker had heard, one number for each resource.
    pub fn heard(&self) -> &[u32]
        ensures { result.now ≡ self.now.heard }
    {
        self.parts.heard.as_slice()
    }

    /// What the evaluation gave.
    pub fn image(&self) -> &Image
        ensures { result.now ≡ self.now.image }
    {
        &self.parts.image
    }

    /// Whether it is addressed to this incarnation of a resource: whether that is the one of which its maker had heard.
    pub fn is_addressed(&self, resource: usize, incarnation: u32) -> bool
        ensures { result ≡ addresses self.now.heard resource incarnation }
    {
        match self.heard().get(resource) {
            None => false,
            Some(heard) => *heard == incarnation,
        }
    }

    /// Whether both are equal.
    pub fn same(&self, other: &Self) -> bool
        ensures { IsTrue result ↔ (self.now ≡ other.now) }
    {
        self.name().same(&other.name())
            && are_same_numbers(self.heard(), other.heard())
            && self.image().same(other.image())
    }
}

/// A task takes the same of last evaluations as of their messages.
pub fn taken_alike()
    ensures { TakenAlike }
{}
