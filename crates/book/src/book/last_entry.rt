ghost use Rattle.std.specs.Prelude.{◌≡◌, reverse, slice_get};
ghost use Rattle.std.specs.List.{find};
ghost use Rattle.std.specs.Option.{option_copied, option_and_then};
ghost use Rattle.evaluation.specs.Last.{last_number, from_of};
ghost use Rattle.book.specs.Steps.Deciding.{is_of_task, newest_in};

use crate::book::Book;
use crate::book::ledger::{last_place, places_of};
use evaluation::Frame;
use task_codes::TaskRef;

/// The entry at an index, if there is one.
pub fn entry_at(entries: &[Frame], index: Option<usize>) -> Option<&Frame>
    ensures { option_copied result ≡ option_and_then (λ k. slice_get entries.now k) index }
{
    match index {
        None => None,
        Some(index) => entries.get(index),
    }
}

/// The newest entry of a task.
fn newest_of(book: &Book, task: TaskRef) -> Option<&Frame>
    ensures { option_copied result ≡ find (is_of_task task) (reverse book.now.entries) }
{
    let places = places_of(book.ledger.tasks.as_slice(), task);
    entry_at(book.entries.as_slice(), last_place(places))
}

/// The newest entry of a task, if it is of this incarnation.
fn newest_in(book: &Book, task: TaskRef, incarnation: u32) -> Option<&Frame>
    ensures { option_copied result ≡ newest_in (reverse book.now.entries) task incarnation }
{
    match newest_of(book, task) {
        None => None,
        Some(entry) => {
            if entry.name().incarnation == incarnation {
                Some(entry)
            } else {
                None
            }
        }
    }
}

/// The number of a task's newest entry, or 0 if that isn't of this incarnation.
pub fn last_number(book: &Book, task: TaskRef, incarnation: u32) -> u32
    ensures { result ≡ last_number (newest_in (reverse book.now.entries) task incarnation) }
{
    match newest_in(book, task, incarnation) {
        None => 0,
        Some(last) => last.name().number,
    }
}

/// The incarnation and number of a task's newest entry, if it is of this incarnation.
pub fn last_from(book: &Book, task: TaskRef, incarnation: u32) -> Option<(u32, u32)>
    ensures { result ≡ from_of (newest_in (reverse book.now.entries) task incarnation) }
{
    match newest_in(book, task, incarnation) {
        None => None,
        Some(last) => {
            let name = last.name();
            Some((name.incarnation, name.number))
        }
    }
}
