ghost use Rattle.std.specs.Prelude.{◌≡◌, reverse};
ghost use Rattle.std.specs.List.{list_all};
ghost use Rattle.book.specs.Steps.Deciding.{is_own_latest};

use crate::book::Book;
use crate::book::last_entry::last_from;
use crate::book::same::is_same_from;
use evaluation::{Name, Take};

/// Whether each take from the own resource is that task's last entry in this incarnation, or of nothing where there is none.
pub fn are_own_latest(book: &Book, name: Name, takes: &[Take]) -> bool
    ensures { result ≡ list_all (is_own_latest (reverse book.now.entries) name) takes.now }
{
    takes.iter().all(|take| is_own_latest(book, name, take))
}

fn is_own_latest(book: &Book, name: Name, take: &Take) -> bool
    ensures { result ≡ is_own_latest (reverse book.now.entries) name take.now }
{
    take.producer.resource != name.task.resource
        || is_same_from(take.from, last_from(book, take.producer, name.incarnation))
}
