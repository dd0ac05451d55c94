ghost use Rattle.std.specs.Prelude.{◌≡◌, reverse};
ghost use Rattle.std.specs.List.{list_all, find};
ghost use Rattle.book.specs.Steps.Deciding.{is_named, keeps_address, addressed_from, is_addressed_to};

use crate::book::Book;
use crate::book::taken::find_named;
use evaluation::{Name, Take};

/// Whether each entry that is taken from another resource is addressed to the taker's incarnation.
pub fn are_addressed(book: &Book, name: Name, takes: &[Take]) -> bool
    ensures { result ≡ list_all (is_addressed_to (reverse book.now.entries) name) takes.now }
{
    takes.iter().all(|take| is_addressed_to(book, name, take))
}

fn is_addressed_to(book: &Book, name: Name, take: &Take) -> bool
    ensures { result ≡ is_addressed_to (reverse book.now.entries) name take.now }
{
    take.producer.resource == name.task.resource || is_taken_addressed(book, name, take)
}

/// Whether the entry that a take names, if it names one, is addressed to the taker's incarnation.
fn is_taken_addressed(book: &Book, name: Name, take: &Take) -> bool
    ensures { result ≡ addressed_from (reverse book.now.entries) name take.now.producer take.now.from }
{
    match take.from {
        None => true,
        Some((incarnation, number)) => keeps_address(
            book,
            Name {
                task: take.producer,
                incarnation,
                number,
            },
            name,
        ),
    }
}

fn keeps_address(book: &Book, taken: Name, taker: Name) -> bool
    ensures { result ≡ keeps_address taker.task.resource taker.incarnation (find (is_named taken) (reverse book.now.entries)) }
{
    match find_named(book, taken) {
        None => true,
        Some(entry) => entry
            .evaluation()
            .is_addressed(taker.task.resource, taker.incarnation),
    }
}
