//! Contacts in a column: state goes on in the row of each that conducts.

ghost use Rattle.std.specs.Prelude.{◌≡◌, ◌<◌, ◌+◌, IsTrue, true, length, slice_set};
ghost use Rattle.scan_steps.specs.Conducting.{bit_at, contact_conducts, contact_memory};
ghost use Rattle.scan_steps.specs.declared.variable_pair.Negated.{Negated};
ghost use Rattle.scan_steps.specs.Steps.Passing.{IsReadAtRail, IsJoinedPairRead, IsPairOverRead, behind_all, rows_behind, memories_behind, read_rows, read_memories};

use crate::bound_contact::{BoundContact, VariableContact, is_variable_on};
use crate::joined_rows::{join_over, join_rows, join_two};
use crate::series::Series;
use crate::slots::Slots;
use crate::variable_pair::{Negated, PairPlaces, PairRows, read_pair, read_variable};
use drawings::ContactKind;

/// Whether a contact of this kind conducts, where its variable is ON or not, and so its memory.
fn conducts(kind: ContactKind, on: bool, memory: bool) -> bool
    ensures { result ≡ contact_conducts kind on memory }
{
    match kind {
        ContactKind::Plain => on,
        ContactKind::Negated => !on,
        ContactKind::Rise => on && !memory,
        ContactKind::Fall => !on && memory,
    }
}

/// The memory of a contact of this kind after a scan; that of an edge is the variable's state, whatever comes from the left.
fn next_memory(kind: ContactKind, on: bool, memory: bool) -> bool
    ensures { result ≡ contact_memory kind on memory }
{
    match kind {
        ContactKind::Plain | ContactKind::Negated => memory,
        ContactKind::Rise | ContactKind::Fall => on,
    }
}

/// Reads the contact of an edge: state goes on in its row if it conducts, and its memory is set.
fn read_edge(contact: &BoundContact, on: bool, rows: &mut [bool], memories: &mut [bool])
    requires row { contact.now.row < length rows.old }
    requires memory { contact.now.memory < length memories.old }
    ensures rows { rows.new ≡ rows_behind contact.now on rows.old memories.old }
    ensures memories { memories.new ≡ memories_behind contact.now on memories.old }
{
    let memory = memories[contact.memory()];
    rows[contact.row()] = rows[contact.row()] && conducts(contact.kind(), on, memory);
    memories[contact.memory()] = next_memory(contact.kind(), on, memory);
}

/// Reads a contact: state goes on in its row if it conducts.
pub(crate) fn read_contact(
    contact: &BoundContact,
    slots: &Slots,
    rows: &mut [bool],
    memories: &mut [bool],
)
    requires row { contact.now.row < length rows.old }
    requires memory { contact.now.memory < length memories.old }
    ensures rows { rows.new ≡ read_rows contact.now slots.now rows.old memories.old }
    ensures memories { memories.new ≡ read_memories contact.now slots.now memories.old }
{
    let on = contact.is_on(slots);
    let row = contact.row();
    let before = rows[row];
    if let ContactKind::Plain = contact.kind() {
        rows[row] = before && on;
    } else if let ContactKind::Negated = contact.kind() {
        rows[row] = before && !on;
    } else {
        read_edge(contact, on, rows, memories);
    }
}

/// Reads a contact of a variable that follows the left rail: the state of its row is ON if it conducts.
pub(crate) fn read_at_rail(contact: VariableContact, slots: &Slots, rows: &mut [bool])
    requires { contact.row < length rows.old }
    ensures { IsReadAtRail contact slots.now rows.old rows.new }
{
    rows[contact.row as usize] = true;
    read_variable(contact.negated, contact.row, contact.place, slots, rows);
}

/// Where one of a row and the next is ON, both are; and then state goes on in the row of each of two plain contacts in them that conducts.
fn read_joined_two(pair: &PairRows, places: &PairPlaces, slots: &Slots, rows: &mut [bool])
    requires plain { pair.now.negated ≡ Negated.Neither }
    requires next { pair.now.second ≡ pair.now.first + 1 }
    requires second { pair.now.second < length rows.old }
    ensures { IsJoinedPairRead pair.now places.now slots.now rows.old rows.new }
{
    let upper = is_variable_on(slots, places.first as usize);
    let lower = is_variable_on(slots, places.second as usize);
    let first = pair.first as usize;
    join_two(rows, first);
    rows[first] = rows[first] & upper;
    rows[first + 1] = rows[first + 1] & lower;
}

/// Whether both contacts of a pair are plain, and the second stands in the row below the first.
fn is_plain_beneath(pair: &PairRows) -> bool
    ensures { IsTrue result → (pair.now.negated ≡ Negated.Neither) × (pair.now.second ≡ pair.now.first + 1) }
{
    match pair.negated {
        Negated::Neither => pair.first as usize + 1 == pair.second as usize,
        Negated::First | Negated::Second | Negated::Both => false,
    }
}

/// The rows from the first to the second contact of a pair are joined, and then state goes on in the row of each that conducts.
pub(crate) fn read_joined_pair(
    pair: &PairRows,
    places: &PairPlaces,
    slots: &Slots,
    rows: &mut [bool],
)
    requires first { pair.now.first < length rows.old }
    requires second { pair.now.second < length rows.old }
    ensures { IsJoinedPairRead pair.now places.now slots.now rows.old rows.new }
{
    if is_plain_beneath(pair) {
        read_joined_two(pair, places, slots, rows);
    } else {
        join_rows(rows, pair.first as usize, pair.second as usize);
        read_pair(pair, places, slots, rows);
    }
}

/// Nothing leads to the row below this one, and all three from this one on are ON where this one or the third is; and then state goes on in the row of each of two plain contacts that conducts, in this row and in the third.
pub(crate) fn read_pair_over(row: usize, places: &PairPlaces, slots: &Slots, rows: &mut [bool])
    requires { row + 2 < length rows.old }
    ensures { IsPairOverRead row places.now slots.now rows.old rows.new }
{
    let upper = is_variable_on(slots, places.first as usize);
    let lower = is_variable_on(slots, places.second as usize);
    join_over(rows, row);
    rows[row] = rows[row] & upper;
    rows[row + 2] = rows[row + 2] & lower;
}

/// Reads the contacts of a rung: the state behind them is that of its row, and the left link of its coil.
pub(crate) fn read_rung(
    row: u8,
    coil: u32,
    contacts: &Series,
    slots: &Slots,
    rows: &mut [bool],
    links: &mut [bool],
)
    requires row { row < length rows.old }
    requires coil { coil < length links.old }
    ensures rows { rows.new ≡ slice_set rows.old row (behind_all slots.now true contacts.now) }
    ensures links { links.new ≡ slice_set links.old coil (bit_at (slice_set rows.old row (behind_all slots.now true contacts.now)) row) }
{
    rows[row as usize] = contacts.is_on(slots);
    links[coil as usize] = rows[row as usize];
}
