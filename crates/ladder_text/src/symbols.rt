//! The symbols and boxes of a text, with their names.

ghost use Rattle.std.specs.Prelude.{◌≡◌, ◌+◌, ◌-◌, ◌++◌, ◌<◌, ◌^◌, Some, IfOk, OnOk};
ghost use Rattle.ladder_rows.specs.Boxes.{option_list};
ghost use Rattle.ladder_text.specs.Places.{layout_of};
ghost use Rattle.ladder_text.specs.Names.{symbol_with, contact_here, coil_here, drawn_box, drawn_boxes};

use crate::names::names_above::name_above;
use crate::names::span::symbol_span;
use crate::names::worded_grid::WordedGrid;
use drawings::{Coil, Contact, DrawnBox, Symbol};
use ladder_rows::{Outline, Span};
use std::alloc::{AllocError, Global};
use words::Text;

/// The contacts and the coils, each by row and then column.
#[derive(Drop)]
pub struct Symbols {
    pub contacts: Vec<Contact>,
    pub coils: Vec<Coil>,
}

/// The symbol whose first place is in a column, with its name, which is looked for at a number first.
fn symbol_with<Kind: Copy>(
    alloc: Global,
    worded: &WordedGrid,
    row: usize,
    column: usize,
    near: usize,
    kind: Kind,
) -> Result<Symbol<Kind>, AllocError>
    requires { column < 2 ^ 62 }
    ensures { IfOk result (λ s. Some s ≡ symbol_with (layout_of worded.now) row column (Some kind)) }
{
    let name = name_above(alloc, worded, row, &symbol_span(column), near)?;
    Ok(Symbol {
        row,
        column,
        kind,
        name,
    })
}

/// Adds the contact whose first place is in a column, if there is one.
fn push_contact(
    contacts: &mut Vec<Contact>,
    worded: &WordedGrid,
    row: usize,
    column: usize,
    near: usize,
) -> Result<(), AllocError>
    requires { column < 2 ^ 62 }
    ensures { OnOk result (contacts.new.items ≡ contacts.old.items ++ option_list (contact_here (layout_of worded.now) row column)) }
{
    if let Some(kind) = worded.marked().contact_at(row, column) {
        let alloc = *contacts.allocator();
        contacts.push(symbol_with(alloc, worded, row, column, near, kind)?)?;
    }
    Ok(())
}

/// Adds the coil whose first place is in a column, if there is one.
fn push_coil(
    coils: &mut Vec<Coil>,
    worded: &WordedGrid,
    row: usize,
    column: usize,
    near: usize,
) -> Result<(), AllocError>
    requires { column < 2 ^ 62 }
    ensures { OnOk result (coils.new.items ≡ coils.old.items ++ option_list (coil_here (layout_of worded.now) row column)) }
{
    if let Some(kind) = worded.marked().coil_at(row, column) {
        let alloc = *coils.allocator();
        coils.push(symbol_with(alloc, worded, row, column, near, kind)?)?;
    }
    Ok(())
}

impl Symbols {
    ghost use Rattle.std.specs.Prelude.{◌≡◌, ◌++◌, IfOk, OnOk};
    ghost use Rattle.ladder_rows.specs.Boxes.{option_list};
    ghost use Rattle.ladder_text.specs.Places.{layout_of};
    ghost use Rattle.ladder_text.specs.Names.{contact_here, coil_here, row_contacts, row_coils, contacts, coils};

    /// Adds the contact or the coil whose first place is in a column, if there is one.
    #[tactic(auto, unfolding(crate::specs::Places::layout_of), using(crate::proofs::Words::SpanRows::contact_beside, crate::proofs::Words::SpanRows::coil_beside))]
    fn push(
        &mut self,
        worded: &WordedGrid,
        row: usize,
        column: usize,
        near: usize,
    ) -> Result<(), AllocError>
        ensures contacts { OnOk result (self.new.contacts.items ≡ self.old.contacts.items ++ option_list (contact_here (layout_of worded.now) row column)) }
        ensures coils { OnOk result (self.new.coils.items ≡ self.old.coils.items ++ option_list (coil_here (layout_of worded.now) row column)) }
    {
        if worded.marked().grid().last() < column {
            return Ok(());
        }
        push_contact(&mut self.contacts, worded, row, column, near)?;
        push_coil(&mut self.coils, worded, row, column, near)?;
        Ok(())
    }

    /// Adds the contacts and the coils of a row.
    fn push_row(&mut self, worded: &WordedGrid, row: usize) -> Result<(), AllocError>
        ensures contacts { OnOk result (self.new.contacts.items ≡ self.old.contacts.items ++ row_contacts (layout_of worded.now) row) }
        ensures coils { OnOk result (self.new.coils.items ≡ self.old.coils.items ++ row_coils (layout_of worded.now) row) }
    {
        for (near, symbol) in worded.symbols(row).iter().enumerate() {
            self.push(worded, row, symbol.first, near)?;
        }
        Ok(())
    }

    /// The contacts and the coils of a text.
    #[tactic(auto, unfolding(crate::specs::Places::layout_of, crate::specs::Names::contacts, crate::specs::Names::coils))]
    pub fn of(alloc: Global, worded: &WordedGrid) -> Result<Symbols, AllocError>
        ensures contacts { IfOk result (λ s. s.contacts.items ≡ contacts (layout_of worded.now)) }
        ensures coils { IfOk result (λ s. s.coils.items ≡ coils (layout_of worded.now)) }
    {
        let mut symbols = Symbols {
            contacts: Vec::new(alloc),
            coils: Vec::new(alloc),
        };
        for row in 0..worded.marked().grid().row_end().saturating_sub(1) {
            symbols.push_row(worded, row + 1)?;
        }
        Ok(symbols)
    }
}

/// A box with its name.
fn drawn_box(alloc: Global, worded: &WordedGrid, outline: &Outline) -> Result<DrawnBox, AllocError>
    ensures { IfOk result (λ b. b ≡ drawn_box (layout_of worded.now) outline.now) }
{
    let right = outline.right as usize;
    let span = Span {
        first: outline.left,
        end: right + 1,
    };
    Ok(DrawnBox {
        top: outline.top,
        left: outline.left,
        bottom: outline.bottom,
        right,
        block: outline.block,
        instance: name_above(alloc, worded, outline.top, &span, 0)?,
        pins: outline.pins.try_copy(alloc)?,
    })
}

/// The boxes, by row and then column.
#[tactic(auto, unfolding(crate::specs::Places::layout_of, crate::specs::Names::drawn_boxes))]
pub fn drawn_boxes(alloc: Global, worded: &WordedGrid) -> Result<Vec<DrawnBox>, AllocError>
    ensures { IfOk result (λ v. v.items ≡ drawn_boxes (layout_of worded.now)) }
{
    let mut all = Vec::new(alloc);
    for outline in worded.marked().boxes() {
        all.push(drawn_box(alloc, worded, outline)?)?;
    }
    Ok(all)
}
