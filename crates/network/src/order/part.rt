ghost use Rattle.std.specs.Prelude.{◌≡◌, [], ◌∷◌, ◌++◌, IfOk, OnOk};

use crate::listing::listed::Entry;
use std::alloc::{AllocError, Global};
use std::marker::Model;

/// The entries of the elements of one network, seen by contracts as a list.
#[derive(Drop)]
pub struct Part {
    entries: Vec<Entry>,
}

impl Model for Part {
    ghost use Rattle.std.specs.Prelude.{List};
    ghost use Rattle.network.specs.declared.listing.listed.Entry.{Entry};

    ghost Value = { List Entry };

    ghost view = { λ p. p.entries.items };
}

impl Part {
    /// Without entries, with room for so many.
    pub fn with_capacity(alloc: Global, capacity: usize) -> Result<Self, AllocError>
        ensures { IfOk result (λ part. part ≡ []) }
    {
        let entries = Vec::with_capacity(alloc, capacity)?;
        Ok(Part { entries })
    }

    /// Adds an entry at the end.
    pub fn push(&mut self, entry: Entry) -> Result<(), AllocError>
        ensures { OnOk result (self.new ≡ self.old ++ entry ∷ []) }
    {
        self.entries.push(entry)?;
        Ok(())
    }

    pub fn entries(&self) -> &[Entry]
        ensures { result.now ≡ self.now }
    {
        &self.entries
    }
}
