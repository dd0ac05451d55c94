ghost use Rattle.std.specs.Prelude.{◌≡◌, ◌↔◌, IsTrue, IfOk};

use crate::image::Image;
use lists::are_same;
use std::alloc::AllocError;
use task_codes::TaskRef;

/// What an evaluation took from one producer: the incarnation and number of the producer's evaluation, and its image.
/// Where there was none, `from` is None and the image is the initial one.
#[derive(Drop)]
pub struct Take {
    pub producer: TaskRef,
    pub from: Option<(u32, u32)>,
    pub image: Image,
}

impl Take {
    /// An equal take.
    pub fn try_copy(&self) -> Result<Take, AllocError>
        ensures { IfOk result (λ copy. copy ≡ self.now) }
    {
        Ok(Take {
            producer: self.producer,
            from: self.from,
            image: self.image.try_copy()?,
        })
    }

    /// Whether both are from one evaluation of one producer, with the same image.
    pub fn same(&self, other: &Self) -> bool
        ensures { IsTrue result ↔ (self.now ≡ other.now) }
    {
        self.producer == other.producer
            && are_same_pairs(self.from, other.from)
            && self.image.same(&other.image)
    }
}

fn are_same_pairs(pair: Option<(u32, u32)>, other: Option<(u32, u32)>) -> bool
    ensures { IsTrue result ↔ (pair ≡ other) }
{
    match (pair, other) {
        (Some((incarnation, number)), Some((other_incarnation, other_number))) => {
            incarnation == other_incarnation && number == other_number
        }
        (None, None) => true,
        _ => false,
    }
}

/// Whether both lists have the same takes in the same order.
pub fn are_same_takes(takes: &[Take], others: &[Take]) -> bool
    ensures { IsTrue result ↔ (takes.now ≡ others.now) }
{
    are_same(takes, others, Take::same)
}
