ghost use Rattle.std.specs.Prelude.{◌≡◌, ◌<◌, ◌^◌, [], ◌∷◌, ◌++◌, IfOk, OnOk, OnErr, slice_index_or};

use crate::mark::Mark;
use std::alloc::{AllocError, Global};
use std::marker::Model;

/// The marks of a row behind a blank margin, seen by contracts as a list.
#[derive(Drop)]
pub struct MarkRow {
    marks: Vec<Mark>,
}

impl Model for MarkRow {
    ghost use Rattle.std.specs.Prelude.{List};
    ghost use Rattle.drawings.specs.declared.mark.Mark.{Mark};

    ghost Value = { List Mark };

    ghost view = { λ r. r.marks.items };
}

impl MarkRow {
    /// The margin alone, with room for so many columns.
    pub fn with_room(alloc: Global, columns: usize) -> Result<MarkRow, AllocError>
        requires { columns < 2 ^ 62 }
        ensures { IfOk result (λ r. r ≡ Mark.Blank ∷ []) }
    {
        let mut marks = Vec::with_capacity(alloc, columns + 1)?;
        marks.push(Mark::Blank)?;
        Ok(MarkRow { marks })
    }

    /// Adds a mark; where there is no memory, the row stays as it was.
    pub fn push(&mut self, mark: Mark) -> Result<(), AllocError>
        ensures added { OnOk result (self.new ≡ self.old ++ mark ∷ []) }
        ensures unchanged { OnErr result (self.new ≡ self.old) }
    {
        self.marks.push(mark)?;
        Ok(())
    }

    /// Adds the three places of a symbol; where there is no memory, the row stays as it was.
    pub fn push_symbol(&mut self, part: Mark) -> Result<(), AllocError>
        ensures added { OnOk result (self.new ≡ self.old ++ part ∷ part ∷ part ∷ []) }
        ensures unchanged { OnErr result (self.new ≡ self.old) }
    {
        self.marks.extend_from_slice(&[part, part, part])?;
        Ok(())
    }

    /// The mark in a column, Blank beyond the last one.
    pub fn at(&self, column: usize) -> Mark
        ensures { result ≡ slice_index_or self.now column Mark.Blank }
    {
        self.marks.get(column).copied().unwrap_or(Mark::Blank)
    }
}
