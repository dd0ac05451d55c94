ghost use Rattle.std.specs.Prelude.{◌≡◌, ◌+◌, ◌<◌, ◌⊎◌, ◌++◌, ◌∷◌, [], ℕ, List, IfOk, OnOk, Any, Option, Some, None, slice_get, slice_index, length};
ghost use Rattle.drawings.specs.Picture.{Picture, IsSound};
ghost use Rattle.drawings.specs.declared.place.Place.{Place};
ghost use Rattle.network.specs.declared.element.Element.{Element};
ghost use Rattle.network.specs.declared.joining.row_table.InRow.{InRow};
ghost use Rattle.network.specs.Networks.{AreLeftRails};
ghost use Rattle.network.specs.Steps.Listing.{AreElementsOf};
ghost use Rattle.network.specs.Steps.Pairs.{AreTakers, AreLabels};
ghost use Rattle.network.specs.Steps.Ranks.{AreTops, AreRanksOf, AreEntries, AreRanks, AreTopsOf, HaveLabels};
ghost use Rattle.network.specs.Steps.Tables.{AreNone, AreBelow};

use crate::joining::pairs::labels_of;
use crate::joining::row_table::RowTable;
use crate::joining::takers::takers_of;
use crate::listing::listed::{Elements, number_of};
use drawings::{Drawing, Place};
use std::alloc::{AllocError, Global};

/// A network's label, with the topmost row at which the network meets the left rail.
#[derive(Clone, Copy)]
pub struct Top {
    pub label: usize,
    pub row: usize,
}

/// The networks by the topmost row at which each meets the left rail.
#[derive(Drop)]
pub struct Ranks {
    /// How many networks meet the left rail.
    pub count: usize,
    /// The number of each element's network, None where it doesn't meet the left rail.
    pub ranks: Vec<Option<u32>>,
}

/// Adds a label and its row, unless the label is there. The table has the position of each label.
fn push_top(
    tops: &mut Vec<Top>,
    table: &mut [Option<u32>],
    label: usize,
    row: usize,
) -> Result<(), AllocError>
    requires label { label < length table.old }
    requires table { AreRanksOf tops.old.items table.old }
    ensures tops { OnOk result ((Any (λ t. t.label ≡ label) tops.old.items × (tops.new.items ≡ tops.old.items))
        ⊎ ((Any (λ t. t.label ≡ label) tops.old.items → ⊥)
        × (tops.new.items ≡ tops.old.items ++ record { label = label; row = row } ∷ []))) }
    ensures table { OnOk result (AreRanksOf tops.new.items table.new) }
{
    if table[label].is_none() {
        table[label] = Some(number_of(tops.len())?);
        tops.push(Top { label, row })?;
    }
    Ok(())
}

/// The labels of the networks that meet the left rail, by the topmost row of each. Writes the position of each label into the table.
fn tops_of(
    alloc: Global,
    rails: &[Place],
    takers: &RowTable,
    labels: &[usize],
    table: &mut [Option<u32>],
) -> Result<Vec<Top>, AllocError>
    requires rows { (k : ℕ) (p : Place) → slice_get rails.now k ≡ Some p → p.row < length takers.now }
    requires owners { HaveLabels takers.now (length labels.now) }
    requires within { AreBelow (length labels.now) labels.now (length table.old) }
    requires none { AreNone table.old }
    ensures tops { IfOk result (λ tops. AreTopsOf rails.now takers.now labels.now tops.items) }
    ensures table { IfOk result (λ tops. AreRanksOf tops.items table.new) }
{
    let mut tops = Vec::new(alloc);
    for rail in rails {
        let row = rail.row;
        if let Some(taker) = takers.at(row) {
            push_top(&mut tops, table, labels[taker.element], row)?;
        }
    }
    Ok(tops)
}

fn no_entries(alloc: Global, count: usize) -> Result<Vec<Option<u32>>, AllocError>
    ensures long { IfOk result (λ table. length table.items ≡ count) }
    ensures none { IfOk result (λ table. AreNone table.items) }
{
    let table = vec![in alloc; None; count]?;
    Ok(table)
}

/// Each element's entry, by its label.
fn entries_of(
    alloc: Global,
    table: &[Option<u32>],
    labels: &[usize],
) -> Result<Vec<Option<u32>>, AllocError>
    requires { (k : ℕ) → k < length labels.now → slice_index labels.now k < length table.now }
    ensures { IfOk result (λ ranks. AreEntries table.now labels.now ranks.items) }
{
    let mut ranks = Vec::with_capacity(alloc, labels.len())?;
    for k in 0..labels.len() {
        ranks.push(table[labels[k]])?;
    }
    Ok(ranks)
}

/// The number of each element's network, and how many networks there are.
pub fn ranks_of(
    alloc: Global,
    drawing: &Drawing,
    rails: &[Place],
    elements: &Elements,
) -> Result<Ranks, AllocError>
    requires sound { IsSound drawing.now }
    requires elements { AreElementsOf drawing.now elements.now }
    requires rails { AreLeftRails drawing.now rails.now }
    ensures { IfOk result (λ ranks. AreRanks drawing.now elements.now ranks.count ranks.ranks.items) }
{
    let rows = drawing.rows() + 1;
    let column = drawing.left() + 1;
    let labels = labels_of(alloc, rows, elements)?;
    let takers = takers_of(alloc, rows, elements, column)?;
    let mut table = no_entries(alloc, labels.len())?;
    let tops = tops_of(alloc, rails, &takers, &labels, &mut table)?;
    let ranks = entries_of(alloc, &table, &labels)?;
    Ok(Ranks {
        count: tops.len(),
        ranks,
    })
}
