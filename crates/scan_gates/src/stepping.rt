ghost use Rattle.std.specs.Prelude.{◌≡◌, ◌<◌, ◌+◌, ℕ, Bool, List, All, OnOk, length, slice_set, true, false};
ghost use Rattle.gates.specs.Gates.{IsBuilt};
ghost use Rattle.gate_words.specs.Values.{time_at};
ghost use Rattle.scan_steps.specs.Conducting.{bit_at};
ghost use Rattle.scan_steps.specs.Steps.Contacts.{first_of, second_of, rows_over};
ghost use Rattle.scan_steps.specs.Steps.Passing.{IsStepIn, AreJoined, IsBoxObeyed, IsObeyed, ArePassed, behind_all, pass_of};
ghost use Rattle.scan_gates.specs.Encoded.{bits_at, slots_at, instances_at, pass_at};
ghost use Rattle.scan_gates.specs.Steps.Pairs.{IsPairReadBy};

use crate::boxes::obey_box;
use crate::contact::Contact;
use crate::encoded::EncodedSlot;
use crate::joining::{join_off, join_rows, set_row};
use crate::reading::{all_conduct, read_at_rail, read_contact, read_pair};
use block_gates::EncodedInstance;
use gate_words::TimeWord;
use gates::{Gates, Signal};
use scan_steps::{BoundBox, PairPlaces, PairRows, Series, Step};
use std::alloc::{AllocError, Global};

/// Joins the rows of a pair and those between, and then reads it.
fn read_joined_pair(
    gates: &mut Gates,
    pair: &PairRows,
    places: &PairPlaces,
    slots: &[EncodedSlot],
    rows: &mut [Signal],
    memories: &mut [Signal],
) -> Result<(), AllocError>
    requires first_row { pair.now.first < length rows.old }
    requires first_memory { places.now.memory < length memories.old }
    requires second_row { pair.now.second < length rows.old }
    requires second_memory { places.now.memory + 1 < length memories.old }
    ensures { OnOk result (IsBuilt gates.old gates.new (λ v. (mid : List Bool)
        × AreJoined pair.now.first pair.now.second (bits_at v rows.old) mid
        × IsPairReadBy (first_of pair.now places.now) (second_of pair.now places.now) (slots_at v slots.now)
        mid (bits_at v memories.old) (bits_at v rows.new) (bits_at v memories.new))) }
{
    join_rows(gates, rows, pair.first as usize, pair.second as usize)?;
    let first = Contact::first(pair, places);
    let second = Contact::second(pair, places);
    read_pair(gates, first, second, slots, rows, memories)
}

/// Nothing leads to the row below this one; this row and the next two are joined, and then two plain contacts are read, in
/// this row and in the third.
fn read_pair_over(
    gates: &mut Gates,
    row: u8,
    places: &PairPlaces,
    slots: &[EncodedSlot],
    rows: &mut [Signal],
    memories: &mut [Signal],
) -> Result<(), AllocError>
    requires row { row + 2 < length rows.old }
    requires memory { places.now.memory + 1 < length memories.old }
    ensures { OnOk result (IsBuilt gates.old gates.new (λ v. (mid : List Bool)
        × AreJoined row (row + 2) (slice_set (bits_at v rows.old) (row + 1) false) mid
        × IsPairReadBy (first_of (rows_over row) places.now) (second_of (rows_over row) places.now) (slots_at v slots.now)
        mid (bits_at v memories.old) (bits_at v rows.new) (bits_at v memories.new))) }
{
    let upper = row as usize;
    join_off(gates, rows, upper + 1, upper, upper + 2)?;
    let first = Contact::first_over(row, places);
    let second = Contact::second_over(row, places);
    read_pair(gates, first, second, slots, rows, memories)
}

/// Reads the contacts of a rung: the state behind them is that of its row, and the left link of its coil.
fn read_rung(
    gates: &mut Gates,
    row: u8,
    coil: u32,
    contacts: &Series,
    slots: &[EncodedSlot],
    rows: &mut [Signal],
    links: &mut [Signal],
) -> Result<(), AllocError>
    requires row { row < length rows.old }
    requires coil { coil < length links.old }
    ensures { OnOk result (IsBuilt gates.old gates.new (λ v.
        let behind = slice_set (bits_at v rows.old) row (behind_all (slots_at v slots.now) true contacts.now) in
        (bits_at v rows.new ≡ behind)
        × (bits_at v links.new ≡ slice_set (bits_at v links.old) coil (bit_at behind row)))) }
{
    let on = all_conduct(gates, contacts.contacts(), slots)?;
    rows[row as usize] = on;
    links[coil as usize] = on;
    Ok(())
}

/// Steps the box with this number.
fn obey_numbered(
    alloc: Global,
    gates: &mut Gates,
    number: usize,
    boxes: &[BoundBox],
    slots: &[EncodedSlot],
    dt: &TimeWord,
    rows: &mut [Signal],
    results: &mut [EncodedInstance],
) -> Result<(), AllocError>
    requires number { number < length boxes.now }
    requires outputs { All (λ e. All (λ o. o.row < length rows.old) e.outputs.items) boxes.now }
    requires results { length results.old ≡ length boxes.now }
    ensures { OnOk result (IsBuilt gates.old gates.new (λ v. (memories links : List Bool)
        → IsBoxObeyed boxes.now (slots_at v slots.now) (time_at v dt.now) number
        (pass_of (bits_at v rows.old) memories links (instances_at v results.old))
        (pass_of (bits_at v rows.new) memories links (instances_at v results.new)))) }
{
    results[number] = obey_box(alloc, gates, &boxes[number], slots, dt, rows)?;
    Ok(())
}

/// Does what a step of a network says.
fn obey(
    alloc: Global,
    gates: &mut Gates,
    step: &Step,
    boxes: &[BoundBox],
    slots: &[EncodedSlot],
    dt: &TimeWord,
    rows: &mut [Signal],
    memories: &mut [Signal],
    links: &mut [Signal],
    results: &mut [EncodedInstance],
) -> Result<(), AllocError>
    requires step { IsStepIn (length rows.old) (length memories.old) (length links.old) (length boxes.now) step.now }
    requires outputs { All (λ e. All (λ o. o.row < length rows.old) e.outputs.items) boxes.now }
    requires results { length results.old ≡ length boxes.now }
    ensures { OnOk result (IsBuilt gates.old gates.new (λ v.
        IsObeyed boxes.now (slots_at v slots.now) (time_at v dt.now) step.now
        (pass_at v rows.old memories.old links.old results.old)
        (pass_at v rows.new memories.new links.new results.new))) }
{
    match step {
        Step::Rail(row) => {
            set_row(gates, rows, *row as usize, true);
            Ok(())
        }
        Step::Off(row) => {
            set_row(gates, rows, *row as usize, false);
            Ok(())
        }
        Step::Upright(first, last) => {
            join_rows(gates, rows, *first as usize, *last as usize)?;
            Ok(())
        }
        Step::OffUpright(row, first, last) => {
            join_off(gates, rows, *row as usize, *first as usize, *last as usize)?;
            Ok(())
        }
        Step::Down(row) => {
            let upper = *row as usize;
            join_off(gates, rows, upper + 1, upper, upper + 1)?;
            Ok(())
        }
        Step::Up(row) => {
            let upper = *row as usize;
            join_off(gates, rows, upper, upper, upper + 1)?;
            Ok(())
        }
        Step::Contact(contact) => {
            read_contact(gates, Contact::of(contact), slots, rows, memories)?;
            Ok(())
        }
        Step::RailContact(contact) => {
            read_at_rail(gates, contact, slots, rows, memories)?;
            Ok(())
        }
        Step::Pair(pair, places) => {
            let first = Contact::first(pair, places);
            let second = Contact::second(pair, places);
            read_pair(gates, first, second, slots, rows, memories)?;
            Ok(())
        }
        Step::JoinedPair(pair, places) => {
            read_joined_pair(gates, pair, places, slots, rows, memories)?;
            Ok(())
        }
        Step::PairOver(row, places) => {
            read_pair_over(gates, *row, places, slots, rows, memories)?;
            Ok(())
        }
        Step::Rung(row, coil, contacts) => {
            read_rung(gates, *row, *coil, contacts, slots, rows, links)?;
            Ok(())
        }
        Step::Coil(row, coil) => {
            links[*coil as usize] = rows[*row as usize];
            Ok(())
        }
        Step::Box(number) => {
            obey_numbered(
                alloc,
                gates,
                *number as usize,
                boxes,
                slots,
                dt,
                rows,
                results,
            )
        }
        Step::BoxCoil(number, row, coil) => {
            obey_numbered(
                alloc,
                gates,
                *number as usize,
                boxes,
                slots,
                dt,
                rows,
                results,
            )?;
            links[*coil as usize] = rows[*row as usize];
            Ok(())
        }
    }
}

/// Does what the steps of a network say, each once, in their order, with signals in the place of states: whatever values
/// the inputs have, the signals have the values that the steps leave, `dt` behind the scan before. Only a lack of memory is
/// refused.
pub fn pass_signals(
    alloc: Global,
    gates: &mut Gates,
    steps: &[Step],
    boxes: &[BoundBox],
    slots: &[EncodedSlot],
    dt: &TimeWord,
    rows: &mut [Signal],
    memories: &mut [Signal],
    links: &mut [Signal],
    results: &mut [EncodedInstance],
) -> Result<(), AllocError>
    requires steps { All
        (λ s. IsStepIn (length rows.old) (length memories.old) (length links.old) (length boxes.now) s) steps.now }
    requires outputs { All (λ e. All (λ o. o.row < length rows.old) e.outputs.items) boxes.now }
    requires results { length results.old ≡ length boxes.now }
    ensures { OnOk result (IsBuilt gates.old gates.new (λ v.
        ArePassed boxes.now (slots_at v slots.now) (time_at v dt.now) steps.now
        (pass_at v rows.old memories.old links.old results.old)
        (pass_at v rows.new memories.new links.new results.new))) }
{
    for step in steps {
        obey(
            alloc, gates, step, boxes, slots, dt, rows, memories, links, results,
        )?;
    }
    Ok(())
}
