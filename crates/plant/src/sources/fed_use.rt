ghost use Rattle.std.specs.Prelude.{◌≡◌};

use crate::sources::feed::Feed;
use plant_grammar::{Name, Use};
use std::marker::Model;

/// An instance, and each of its binds with its names resolved.
#[derive(Drop)]
pub struct FedUse<'a> {
    run: &'a Use,
    feeds: Vec<Feed>,
}

impl<'a> Model for FedUse<'a> {
    ghost use Rattle.plant.specs.Steps.FedUses.{FedUseValue};

    ghost Value = { FedUseValue };

    ghost view = { λ u. record { run = u.run.now; feeds = u.feeds.items } };
}

impl<'a> FedUse<'a> {
    /// An instance, and its binds once they are resolved.
    pub fn new(run: &'a Use, feeds: Vec<Feed>) -> FedUse<'a>
        ensures { result ≡ record { run = run.now; feeds = feeds.items } }
    {
        FedUse { run, feeds }
    }

    /// The name of the task that runs the instance.
    pub fn task(&self) -> &Name
        ensures { result.now ≡ self.now.run.task }
    {
        &self.run.task
    }

    /// Its binds, resolved.
    pub fn feeds(&self) -> &[Feed]
        ensures { result.now ≡ self.now.feeds }
    {
        self.feeds.as_slice()
    }
}
