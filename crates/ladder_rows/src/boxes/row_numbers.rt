ghost use Rattle.std.specs.Prelude.{◌≡◌, ◌++◌, ◌∷◌, [], OnOk};

use std::alloc::{AllocError, Global};
use std::marker::Model;

/// The numbers of the boxes that have a row, seen by contracts as a list.
#[derive(Drop)]
pub struct RowNumbers {
    numbers: Vec<usize>,
}

impl Model for RowNumbers {
    ghost use Rattle.std.specs.Prelude.{List, ℕ};

    ghost Value = { List ℕ };

    ghost view = { λ r. r.numbers.items };
}

impl RowNumbers {
    pub fn new(alloc: Global) -> RowNumbers
        ensures { result ≡ [] }
    {
        RowNumbers {
            numbers: Vec::new(alloc),
        }
    }

    pub fn as_slice(&self) -> &[usize]
        ensures { result.now ≡ self.now }
    {
        &self.numbers
    }

    pub fn push(&mut self, number: usize) -> Result<(), AllocError>
        ensures { OnOk result (self.new ≡ self.old ++ number ∷ []) }
    {
        self.numbers.push(number)?;
        Ok(())
    }
}
