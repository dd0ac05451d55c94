ghost use Rattle.std.specs.Prelude.{◌≡◌, reverse};
ghost use Rattle.std.specs.List.{list_all, find};
ghost use Rattle.std.specs.Option.{option_copied};
ghost use Rattle.book.specs.Fits.{AllFit};
ghost use Rattle.book.specs.Steps.Deciding.{is_named, has_named, is_known, keeps_image, is_untorn};
ghost use Rattle.book.specs.Steps.Ledger.{newest_place};

use crate::book::Book;
use crate::book::last_entry::entry_at;
use crate::book::ledger::{find_place, places_of};
use crate::book::same::is_same_image;
use evaluation::{Frame, Image, Name, Take};

/// Whether each take that isn't of nothing names an entry.
pub fn are_known(book: &Book, takes: &[Take]) -> bool
    ensures { result ≡ list_all (is_known (reverse book.now.entries)) takes.now }
{
    takes.iter().all(|take| is_known(book, take))
}

fn is_known(book: &Book, take: &Take) -> bool
    ensures { result ≡ is_known (reverse book.now.entries) take.now }
{
    match take.from {
        None => true,
        Some((incarnation, number)) => has_named(
            book,
            Name {
                task: take.producer,
                incarnation,
                number,
            },
        ),
    }
}

/// Whether an entry has this name.
fn has_named(book: &Book, name: Name) -> bool
    ensures { result ≡ has_named (reverse book.now.entries) name }
{
    find_named(book, name).is_some()
}

/// Whether each take that isn't of nothing has the image of the entry that it names.
pub fn are_untorn(book: &Book, takes: &[Take]) -> bool
    ensures { result ≡ list_all (is_untorn (reverse book.now.entries)) takes.now }
{
    takes.iter().all(|take| is_untorn(book, take))
}

fn is_untorn(book: &Book, take: &Take) -> bool
    ensures { result ≡ is_untorn (reverse book.now.entries) take.now }
{
    match take.from {
        None => true,
        Some((incarnation, number)) => is_image_of(
            book,
            Name {
                task: take.producer,
                incarnation,
                number,
            },
            &take.image,
        ),
    }
}

/// Whether the newest entry of this name, if there is one, has this image.
fn is_image_of(book: &Book, name: Name, image: &Image) -> bool
    ensures { result ≡ keeps_image image.now (find (is_named name) (reverse book.now.entries)) }
{
    match find_named(book, name) {
        None => true,
        Some(entry) => is_same_image(image, entry.outputs()),
    }
}

/// Where the entry of a name stands, if there is one.
pub fn place_of(book: &Book, name: Name) -> Option<usize>
    ensures value { result ≡ newest_place (is_named name) (reverse book.now.entries) }
    ensures fit { AllFit book.now.first (reverse book.now.entries) }
{
    let places = places_of(book.ledger.tasks.as_slice(), name.task);
    find_place(places, name.incarnation, name.number)
}

/// The entry of a name, if there is one.
pub fn find_named(book: &Book, name: Name) -> Option<&Frame>
    ensures { option_copied result ≡ find (is_named name) (reverse book.now.entries) }
{
    entry_at(book.entries.as_slice(), place_of(book, name))
}
