//! Whether a book and journals are those of one run.

ghost use Rattle.std.specs.Prelude.{◌≡◌, ◌↔◌, ◌≤◌, ℕ, IsTrue, IfOk, IfErr, OnOk, All, slice_index};
ghost use Rattle.node_reports.specs.Codes.{AreOfPlant};
ghost use Rattle.node_reports.specs.Journals.{firsts_of, IsLawful};
ghost use Rattle.node_reports.specs.Reports.{IsFittingBook, AreJournalsOf, AreInBook, RunsAgain, CanBeMadeAgain, Agree, IsAgreeFault};
ghost use Rattle.node_reports.specs.Steps.Comparing.{MadeOfPlant};

use crate::collector::agreement::{all_begin, all_made};
use crate::journal::Journal;
use crate::journals::Journals;
use crate::plant_book::PlantBook;
use crate::run_fault::RunFault;
use book::Book;
use evaluation::Frame;
use plant::Plant;

/// Whether the journals are those of the plant's resources in order, begin in the book's first incarnations, and made the book's entries, if this tells whether they made these.
pub(crate) fn agree_if(book: &Book, plant: &Plant, journals: &[Journal], are_made: bool) -> bool
    requires { IsTrue are_made ↔ AreInBook book.now.entries journals.now }
    ensures { IsTrue result ↔ Agree plant.now book.now journals.now }
{
    if journals.len() != plant.resources() {
        return false;
    }
    if !all_begin(book.first(), journals) {
        return false;
    }
    are_made
}

/// Whether the journals are those of the plant's resources in order, begin in the book's first incarnations, and made the book's entries.
fn agree(book: &Book, plant: &Plant, journals: &[Journal]) -> bool
    requires book { AreOfPlant plant.now book.now.entries }
    requires journals { MadeOfPlant plant.now journals.now }
    ensures { IsTrue result ↔ Agree plant.now book.now journals.now }
{
    let are_made = all_made(book.entries(), journals);
    agree_if(book, plant, journals, are_made)
}

/// What was heard are numbers of 32 bits.
fn heard_of(heard: &[u32]) -> &[u32]
    ensures same { result.now ≡ heard.now }
    ensures bound { (m : ℕ) → slice_index heard.now m ≤ 4294967295 }
{
    heard
}

/// The incarnations of an entry, its own and those that were heard, are numbers of 32 bits.
fn incarnations_fit(entry: &Frame)
    ensures { (entry.now.name.incarnation ≤ 4294967295) × ((m : ℕ) → slice_index entry.now.heard m ≤ 4294967295) }
{
    let _incarnation = entry.name().incarnation;
    let _heard = heard_of(entry.evaluation().heard());
}

/// Those of all entries are.
fn all_incarnations_fit(entries: &[Frame])
    ensures { All (λ x. (x.name.incarnation ≤ 4294967295) × ((m : ℕ) → slice_index x.heard m ≤ 4294967295)) entries.now }
{
    for k in 0..entries.len() {
        incarnations_fit(&entries[k]);
    }
}

/// The book and the journals, if they agree, as this tells. BookDisagrees: they don't.
pub(crate) fn agreed_if(
    plant: &Plant,
    max_number: u32,
    book: Book,
    journals: Vec<Journal>,
    agree: bool,
) -> Result<PlantBook, RunFault>
    requires told { IsTrue agree ↔ Agree plant.now book journals.items }
    requires lawful { All (IsLawful plant.now (firsts_of journals.items) max_number) journals.items }
    ensures fitting { IfOk result (λ r. IsFittingBook r.book r.journals) }
    ensures journals { IfOk result (λ r. AreJournalsOf plant.now max_number r.journals) }
    ensures made { IfOk result (λ r. AreInBook r.book.entries r.journals) }
    ensures again { IfOk result (λ r. RunsAgain plant.now max_number r.book r.journals) }
    ensures made_again { IfOk result (λ r. CanBeMadeAgain plant.now max_number r.book r.journals) }
    ensures kept { IfOk result (λ r. (r.book ≡ book) × (r.journals ≡ journals.items)) }
    ensures agree { OnOk result (Agree plant.now book journals.items) }
    ensures fault { IfErr result (IsAgreeFault plant.now book journals.items) }
{
    // The getter hands out that the plant is sound.
    let _resources = plant.resources();
    if !agree {
        return Err(RunFault::BookDisagrees);
    }
    all_incarnations_fit(book.entries());
    Ok(PlantBook {
        book,
        journals: Journals::of(journals),
    })
}

/// The book and the journals, if they agree: there is one journal for each resource of the plant, and what the journals
/// made are the book's entries. BookDisagrees: they don't.
pub fn agreed(
    plant: &Plant,
    max_number: u32,
    book: Book,
    journals: Vec<Journal>,
) -> Result<PlantBook, RunFault>
    requires lawful { All (IsLawful plant.now (firsts_of journals.items) max_number) journals.items }
    requires of_plant { AreOfPlant plant.now book.entries }
    ensures fitting { IfOk result (λ r. IsFittingBook r.book r.journals) }
    ensures journals { IfOk result (λ r. AreJournalsOf plant.now max_number r.journals) }
    ensures made { IfOk result (λ r. AreInBook r.book.entries r.journals) }
    ensures again { IfOk result (λ r. RunsAgain plant.now max_number r.book r.journals) }
    ensures made_again { IfOk result (λ r. CanBeMadeAgain plant.now max_number r.book r.journals) }
    ensures kept { IfOk result (λ r. (r.book ≡ book) × (r.journals ≡ journals.items)) }
    ensures agree { OnOk result (Agree plant.now book journals.items) }
    ensures fault { IfErr result (IsAgreeFault plant.now book journals.items) }
{
    let agree = agree(&book, plant, journals.as_slice());
    agreed_if(plant, max_number, book, journals, agree)
}
