ghost use Rattle.std.specs.Prelude.{◌≡◌, ◌<◌, List, Bool, All, length};
ghost use Rattle.scan_steps.specs.Steps.Passing.{IsStepIn, IsBoxObeyed, IsObeyed, ArePassed, pass_of};

use crate::bound_box::BoundBox;
use crate::box_rows::step_box;
use crate::contact_rows::{
    read_at_rail, read_contact, read_joined_pair, read_pair_over, read_rung,
};
use crate::joined_rows::{go_down, go_up, join_off, join_rows};
use crate::slot::Instance;
use crate::slots::Slots;
use crate::step::Step;
use crate::variable_pair::read_pair;

/// Steps the box with this number.
#[inline(always)]
fn obey_box(
    number: usize,
    boxes: &[BoundBox],
    slots: &Slots,
    rows: &mut [bool],
    results: &mut [Instance],
    dt: u32,
)
    requires number { number < length boxes.now }
    requires outputs { All (λ e. All (λ o. o.row < length rows.old) e.outputs.items) boxes.now }
    requires results { length results.old ≡ length boxes.now }
    ensures { (memories links : List Bool) → IsBoxObeyed boxes.now slots.now dt number
        (pass_of rows.old memories links results.old) (pass_of rows.new memories links results.new) }
{
    step_box(&boxes[number], &mut results[number], slots, rows, dt);
}

/// Does what a step says.
fn obey(
    step: &Step,
    boxes: &[BoundBox],
    slots: &Slots,
    rows: &mut [bool],
    memories: &mut [bool],
    links: &mut [bool],
    results: &mut [Instance],
    dt: u32,
)
    requires step { IsStepIn (length rows.old) (length memories.old) (length links.old) (length boxes.now) step.now }
    requires outputs { All (λ e. All (λ o. o.row < length rows.old) e.outputs.items) boxes.now }
    requires results { length results.old ≡ length boxes.now }
    ensures { IsObeyed boxes.now slots.now dt step.now
        (pass_of rows.old memories.old links.old results.old) (pass_of rows.new memories.new links.new results.new) }
{
    match step {
        Step::Rail(row) => rows[*row as usize] = true,
        Step::Off(row) => rows[*row as usize] = false,
        Step::Upright(first, last) => join_rows(rows, *first as usize, *last as usize),
        Step::OffUpright(row, first, last) => { join_off(rows, *row, *first, *last) }
        Step::Down(row) => go_down(rows, *row as usize),
        Step::Up(row) => go_up(rows, *row as usize),
        Step::Contact(contact) => read_contact(contact, slots, rows, memories),
        Step::RailContact(contact) => read_at_rail(*contact, slots, rows),
        Step::Pair(pair, places) => read_pair(pair, places, slots, rows),
        Step::JoinedPair(pair, places) => read_joined_pair(pair, places, slots, rows),
        Step::PairOver(row, places) => read_pair_over(*row as usize, places, slots, rows),
        Step::Rung(row, coil, contacts) => read_rung(*row, *coil, contacts, slots, rows, links),
        Step::Coil(row, number) => links[*number as usize] = rows[*row as usize],
        Step::Box(number) | Step::BoxCoil(number, _, _) => {
            obey_box(*number as usize, boxes, slots, rows, results, dt);
            if let Step::BoxCoil(_, row, coil) = step {
                links[*coil as usize] = rows[*row as usize];
            }
        }
    }
}

/// Does what the steps say, each once, in their order.
pub fn pass(
    steps: &[Step],
    boxes: &[BoundBox],
    slots: &Slots,
    rows: &mut [bool],
    memories: &mut [bool],
    links: &mut [bool],
    results: &mut [Instance],
    dt: u32,
)
    requires steps { All
        (λ s. IsStepIn (length rows.old) (length memories.old) (length links.old) (length boxes.now) s) steps.now }
    requires outputs { All (λ e. All (λ o. o.row < length rows.old) e.outputs.items) boxes.now }
    requires results { length results.old ≡ length boxes.now }
    ensures { ArePassed boxes.now slots.now dt steps.now
        (pass_of rows.old memories.old links.old results.old) (pass_of rows.new memories.new links.new results.new) }
{
    for step in steps {
        obey(step, boxes, slots, rows, memories, links, results, dt);
    }
}
