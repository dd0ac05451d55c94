ghost use Rattle.std.specs.Prelude.{◌≡◌, ◌<◌, length, reverse};
ghost use Rattle.book.specs.Fits.{present_in, AllFit};
ghost use Rattle.book.specs.Steps.Deciding.{is_next, is_numbered};

use crate::book::Book;
use crate::book::last_entry::last_number;
use evaluation::Name;

/// Whether a name is the next one of its task: its resource exists, its incarnation isn't below the resource's present one,
/// and its number is the next in that incarnation.
pub fn is_numbered(book: &Book, name: Name) -> bool
    ensures value { result ≡ is_numbered book.now.first (reverse book.now.entries) name }
    ensures fit { AllFit book.now.first (reverse book.now.entries) }
{
    let resource = name.task.resource;
    resource < book.first.len()
        && present_in(book, resource) <= name.incarnation
        && is_next(book, name)
}

/// A resource's present incarnation: the greatest of its first one, its entries' and what entries have heard of it.
fn present_in(book: &Book, resource: usize) -> u32
    requires { resource < length book.now.first }
    ensures { result ≡ present_in book.now.first (reverse book.now.entries) resource }
{
    book.ledger.present[resource]
}

/// Whether its number is one more than that of its task's last entry in its incarnation.
fn is_next(book: &Book, name: Name) -> bool
    ensures { result ≡ is_next (reverse book.now.entries) name }
{
    let last = last_number(book, name.task, name.incarnation);
    name.number > 0 && name.number - 1 == last
}
