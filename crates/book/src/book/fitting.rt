ghost use Rattle.std.specs.Prelude.{◌≡◌, reverse};
ghost use Rattle.book.specs.Fits.{AllFit};
ghost use Rattle.book.specs.Steps.Deciding.{first_failed, IsDecided};

use crate::book::Book;
use crate::book::addressed::are_addressed;
use crate::book::heard::is_well_heard;
use crate::book::misfit::Misfit;
use crate::book::not_back::are_not_back;
use crate::book::numbered::is_numbered;
use crate::book::own_latest::are_own_latest;
use crate::book::taken::{are_known, are_untorn};
use evaluation::{Evaluation, Name, Take};

/// Why an evaluation doesn't fit these entries, if it doesn't.
pub fn find_misfit(book: &Book, evaluation: &Evaluation) -> Option<Misfit>
    ensures { IsDecided book.now evaluation.now result }
{
    first_failed(
        book,
        evaluation.name(),
        evaluation.heard(),
        evaluation.takes(),
    )
}

fn first_failed(book: &Book, name: Name, heard: &[u32], takes: &[Take]) -> Option<Misfit>
    ensures value { result ≡ first_failed book.now.first (reverse book.now.entries) name heard.now takes.now }
    ensures fit { AllFit book.now.first (reverse book.now.entries) }
{
    if !is_numbered(book, name) {
        return Some(Misfit::WrongNumber);
    }
    if !are_known(book, takes) {
        return Some(Misfit::UnknownTake);
    }
    if !are_untorn(book, takes) {
        return Some(Misfit::Torn);
    }
    if !are_not_back(book, name, takes) {
        return Some(Misfit::Back);
    }
    if !are_own_latest(book, name, takes) {
        return Some(Misfit::NotOwnLatest);
    }
    if !are_addressed(book, name, takes) {
        return Some(Misfit::NotAddressed);
    }
    if !is_well_heard(book, name, heard) {
        return Some(Misfit::Misheard);
    }
    None
}
