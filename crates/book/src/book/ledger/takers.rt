ghost use Rattle.std.specs.Prelude.{◌≡◌, ℕ, true, OnOk, map};
ghost use Rattle.std.specs.List.{find, list_any};
ghost use Rattle.std.specs.Option.{option_copied};
ghost use Rattle.task_codes.specs.declared.task_ref.TaskRef.{TaskRef as Task};
ghost use Rattle.evaluation.specs.Last.{same_task};
ghost use Rattle.std.specs.List.{AllByRecursion};
ghost use Rattle.book.specs.Steps.Ledger.{is_taker, taker_in, has_row, noted};

use crate::book::ledger::taker::Taker;
use evaluation::Take;
use std::alloc::AllocError;
use task_codes::TaskRef;

/// Where the newest entry of a resource that takes from a producer stands.
pub fn find_taker(rows: &[Taker], resource: usize, producer: TaskRef) -> Option<usize>
    ensures { result ≡ taker_in rows.now resource producer }
{
    match find_row(rows, resource, producer) {
        None => None,
        Some(row) => row.index,
    }
}

fn find_row(rows: &[Taker], resource: usize, producer: TaskRef) -> Option<&Taker>
    ensures { option_copied result ≡ find (is_taker resource producer) rows.now }
{
    rows.iter()
        .find(|row| row.resource == resource && row.producer == producer)
}

/// Makes a row of a resource for each producer of these takes.
pub fn make_rows(rows: &mut Vec<Taker>, resource: usize, takes: &[Take]) -> Result<(), AllocError>
    ensures same { (n : ℕ) (q : Task) → taker_in rows.new.items n q ≡ taker_in rows.old.items n q }
    ensures made { OnOk result (AllByRecursion (λ u. has_row rows.new.items resource u.producer ≡ true) takes.now) }
{
    for take in takes {
        make_row(rows, resource, take.producer)?;
    }
    Ok(())
}

fn make_row(rows: &mut Vec<Taker>, resource: usize, producer: TaskRef) -> Result<(), AllocError>
    ensures same { (n : ℕ) (q : Task) → taker_in rows.new.items n q ≡ taker_in rows.old.items n q }
    ensures kept { (n : ℕ) (q : Task) → has_row rows.old.items n q ≡ true → has_row rows.new.items n q ≡ true }
    ensures made { OnOk result (has_row rows.new.items resource producer ≡ true) }
{
    if find_row(rows.as_slice(), resource, producer).is_some() {
        return Ok(());
    }
    rows.push(Taker {
        resource,
        producer,
        index: None,
    })?;
    Ok(())
}

/// Notes that an entry of a resource with these takes stands at this index.
pub fn note_takes(rows: &mut [Taker], resource: usize, takes: &[Take], index: usize)
    ensures { rows.new ≡ map (noted resource takes.now index) rows.old }
{
    for row in rows.iter_mut() {
        *row = noted(*row, resource, takes, index);
    }
}

fn noted(row: Taker, resource: usize, takes: &[Take], index: usize) -> Taker
    ensures { result ≡ noted resource takes.now index row }
{
    if resource == row.resource && has_producer(takes, row.producer) {
        Taker {
            index: Some(index),
            ..row
        }
    } else {
        row
    }
}

fn has_producer(takes: &[Take], producer: TaskRef) -> bool
    ensures { result ≡ list_any (λ u. same_task u.producer producer) takes.now }
{
    takes.iter().any(|take| take.producer == producer)
}
