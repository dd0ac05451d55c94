mod addressed;
mod fitting;
mod heard;
mod last_entry;
mod ledger;
mod misfit;
mod not_back;
mod numbered;
mod own_latest;
mod same;
mod taken;

use crate::book::fitting::find_misfit;
use crate::book::ledger::Ledger;
use crate::book::taken::place_of;
use evaluation::{Frame, Name};
pub use misfit::Misfit;
use std::alloc::{AllocError, Global};
use std::marker::Model;

/// Evaluations in an order in which each one fits those before it.
#[derive(Drop)]
pub struct Book {
    first: Vec<u32>,
    entries: Vec<Frame>,
    ledger: Ledger,
}

impl Model for Book {
    ghost use Rattle.book.specs.Book.{BookValue};
    ghost use Rattle.book.specs.Steps.Ledger.{IsBook};

    ghost Value = { BookValue };

    ghost view = { λ b. record { first = b.first.items; entries = b.entries.items } };

    ghost invariant = { λ b. IsBook b.first.items b.entries.items b.ledger };
}

ghost use Rattle.std.specs.Prelude.{◌≡◌, ◌↔◌, ◌++◌, ◌∷◌, [], ℕ, Some, IfOk, IfErr, OnOk, OnErr, reverse, slice_get};
ghost use Rattle.std.specs.Option.{option_map};
ghost use Rattle.book.specs.Fits.{Fits, AllFit, NeverFall};
ghost use Rattle.book.specs.Book.{IsMisfit};

impl Book {
    /// A book without entries. The resources begin in these incarnations.
    pub fn new(alloc: Global, first: &[u32]) -> Result<Book, AllocError>
        ensures { IfOk result (λ b. b ≡ record { first = first.now; entries = [] }) }
    {
        Ok(Book {
            first: Vec::from_slice(alloc, first)?,
            entries: Vec::new(alloc),
            ledger: Ledger::new(alloc, first)?,
        })
    }

    /// The first incarnation of each resource.
    pub fn first(&self) -> &[u32]
        ensures { result.now ≡ self.now.first }
    {
        self.first.as_slice()
    }

    /// The entries in their order. Each fits those before it, and takes that aren't of nothing never fall, over all incarnations of a resource.
    pub fn entries(&self) -> &[Frame]
        ensures value { result.now ≡ self.now.entries }
        ensures fit { AllFit self.now.first (reverse self.now.entries) }
        ensures unfallen { NeverFall (reverse self.now.entries) }
    {
        self.entries.as_slice()
    }

    /// Where the entry of a name stands, counted from 0. No two entries have one name.
    pub fn position_of(&self, name: Name) -> Option<usize>
        ensures { (k : ℕ) → (result ≡ Some k) ↔ (option_map (λ y. y.name) (slice_get self.now.entries k) ≡ Some name) }
    {
        place_of(self, name)
    }

    /// Appends an evaluation that fits the entries. Any other one comes back with the first cause, and the book is unchanged.
    pub fn enter(&mut self, frame: Frame) -> Result<(), (Frame, Misfit)>
        ensures ok { OnOk result (self.new ≡ record self.old { entries = self.old.entries ++ frame ∷ [] }) }
        ensures fits { OnOk result (Fits self.old.first (reverse self.old.entries) frame) }
        ensures misfit { IfErr result (λ r. IsMisfit self.old.first (reverse self.old.entries) frame r.1) }
        ensures returned { IfErr result (λ r. r.0 ≡ frame) }
        ensures err { OnErr result (self.new ≡ self.old) }
    {
        if let Some(misfit) = find_misfit(self, frame.evaluation()) {
            return Err((frame, misfit));
        }
        if self.entries.reserve(1).is_err() {
            return Err((frame, Misfit::Memory));
        }
        let index = self.entries.len();
        if self.ledger.enter(frame.evaluation(), index).is_err() {
            return Err((frame, Misfit::Memory));
        }
        match self.entries.push(frame) {
            Ok(()) => Ok(()),
            Err(_) => unreachable!(),
        }
    }
}
