ghost use Rattle.std.specs.Prelude.{◌≡◌, ◌≢◌, ℕ, [], Some, OnOk, slice_get};
ghost use Rattle.network.specs.Steps.Tables.{KeepsOthers};

use std::alloc::{AllocError, Global};
use std::marker::Model;

/// Numbers by column, seen by contracts as a list.
#[derive(Drop)]
pub struct NumberRow {
    numbers: Vec<usize>,
}

impl Model for NumberRow {
    ghost use Rattle.std.specs.Prelude.{List, ℕ};

    ghost Value = { List ℕ };

    ghost view = { λ r. r.numbers.items };
}

impl NumberRow {
    pub fn new(alloc: Global) -> Self
        ensures { result ≡ [] }
    {
        NumberRow {
            numbers: Vec::new(alloc),
        }
    }

    /// The number in a column, None beyond the last one.
    pub fn get(&self, column: usize) -> Option<usize>
        ensures { result ≡ slice_get self.now column }
    {
        self.numbers.get(column).copied()
    }

    /// Writes a number into a column. Columns that are new on its left get 0.
    pub fn put(&mut self, column: usize, number: usize) -> Result<(), AllocError>
        ensures here { OnOk result (slice_get self.new column ≡ Some number) }
        ensures kept { KeepsOthers column self.old self.new }
    {
        if self.numbers.len() <= column {
            self.numbers.resize(column.saturating_add(1), 0)?;
        }
        self.numbers[column] = number;
        Ok(())
    }
}
