ghost use Rattle.std.specs.Prelude.{◌≡◌, ◌<◌, Some, length, reverse};
ghost use Rattle.std.specs.List.{find};
ghost use Rattle.std.specs.Option.{option_copied};
ghost use Rattle.book.specs.Fits.{AllFit};
ghost use Rattle.book.specs.Steps.Deciding.{none_below, is_of_resource, keeps_heard, is_well_heard};

use crate::book::Book;
use crate::book::last_entry::entry_at;
use evaluation::{Frame, Name};

/// Whether one number is heard of each resource, none below its first incarnation, and none below what an earlier entry of this resource and incarnation has heard.
pub fn is_well_heard(book: &Book, name: Name, heard: &[u32]) -> bool
    requires { name.task.resource < length book.now.first }
    ensures { result ≡ is_well_heard book.now.first (reverse book.now.entries) name heard.now }
{
    none_below(book.first.as_slice(), heard) && is_not_below_newest(book, name, heard)
}

/// Whether the newest entry of this resource is of another incarnation, or none of these numbers is below what it has heard.
fn is_not_below_newest(book: &Book, name: Name, heard: &[u32]) -> bool
    requires { name.task.resource < length book.now.first }
    ensures { result ≡ keeps_heard name.incarnation heard.now (find (is_of_resource name.task.resource) (reverse book.now.entries)) }
{
    match newest_of(book, name.task.resource) {
        None => true,
        Some(entry) => keeps_heard(entry, name.incarnation, heard),
    }
}

fn keeps_heard(entry: &Frame, incarnation: u32, heard: &[u32]) -> bool
    ensures { result ≡ keeps_heard incarnation heard.now (Some entry.now) }
{
    entry.name().incarnation != incarnation || none_below(entry.evaluation().heard(), heard)
}

/// The newest entry of a resource.
fn newest_of(book: &Book, resource: usize) -> Option<&Frame>
    requires { resource < length book.now.first }
    ensures { option_copied result ≡ find (is_of_resource resource) (reverse book.now.entries) }
{
    entry_at(book.entries.as_slice(), book.ledger.newest[resource])
}

/// Whether there are as many numbers, and none is below the one at its place of the lows.
fn none_below(lows: &[u32], numbers: &[u32]) -> bool
    ensures { result ≡ none_below lows.now numbers.now }
{
    if lows.len() != numbers.len() {
        return false;
    }
    for k in 0..lows.len() {
        if numbers[k] < lows[k] {
            return false;
        }
    }
    true
}
