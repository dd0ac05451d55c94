ghost use Rattle.std.specs.Prelude.{◌≡◌, Some, reverse};
ghost use Rattle.std.specs.List.{list_all, find};
ghost use Rattle.std.specs.Option.{option_copied};
ghost use Rattle.book.specs.Fits.{is_below};
ghost use Rattle.book.specs.Steps.Deciding.{takes_from, keeps_take, keeps_takes, is_kept, is_not_back};

use crate::book::Book;
use crate::book::last_entry::entry_at;
use crate::book::ledger::find_taker;
use evaluation::{Frame, Name, Take};
use task_codes::TaskRef;

/// Whether no take from another resource is below an earlier take of this resource and incarnation from that producer.
pub fn are_not_back(book: &Book, name: Name, takes: &[Take]) -> bool
    ensures { result ≡ list_all (is_not_back (reverse book.now.entries) name) takes.now }
{
    takes.iter().all(|take| is_not_back(book, name, take))
}

fn is_not_back(book: &Book, name: Name, take: &Take) -> bool
    ensures { result ≡ is_not_back (reverse book.now.entries) name take.now }
{
    take.producer.resource == name.task.resource || is_kept(book, name, take)
}

/// Whether the newest entry of this resource that takes from that producer is of another incarnation, or a take is below none of its takes.
fn is_kept(book: &Book, name: Name, take: &Take) -> bool
    ensures { result ≡ is_kept (reverse book.now.entries) name take.now }
{
    match newest_taker(book, name.task.resource, take.producer) {
        None => true,
        Some(entry) => keeps_takes(entry, name.incarnation, take),
    }
}

fn keeps_takes(entry: &Frame, incarnation: u32, take: &Take) -> bool
    ensures { result ≡ keeps_takes incarnation take.now (Some entry.now) }
{
    entry.name().incarnation != incarnation || is_below_none(take, entry.evaluation().takes())
}

/// The newest entry of this resource that takes from this producer.
fn newest_taker(book: &Book, resource: usize, producer: TaskRef) -> Option<&Frame>
    ensures { option_copied result ≡ find (takes_from resource producer) (reverse book.now.entries) }
{
    let index = find_taker(book.ledger.takers.as_slice(), resource, producer);
    entry_at(book.entries.as_slice(), index)
}

/// Whether a take is below none of these.
fn is_below_none(take: &Take, others: &[Take]) -> bool
    ensures { result ≡ list_all (keeps_take take.now) others.now }
{
    others.iter().all(|other| keeps_take(take, other))
}

/// Whether another take is from another producer, or this one isn't below it.
fn keeps_take(take: &Take, other: &Take) -> bool
    ensures { result ≡ keeps_take take.now other.now }
{
    other.producer != take.producer || !is_below(take, other)
}

/// Whether a take is below another one: in the pair order, where nothing is below every pair.
fn is_below(take: &Take, other: &Take) -> bool
    ensures { result ≡ is_below take.now.from other.now.from }
{
    match other.from {
        None => false,
        Some(upper) => match take.from {
            None => true,
            Some(lower) => lower.0 < upper.0 || (lower.0 == upper.0 && lower.1 < upper.1),
        },
    }
}
