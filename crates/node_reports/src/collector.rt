mod agreeing;
mod agreement;
mod found;
mod hearings;
mod looked;
mod looking;
mod obedience;
mod stops;
mod told;
mod unanswered;

ghost use Rattle.std.specs.Prelude.{◌≡◌, IfOk, IfErr, All};
ghost use Rattle.node_reports.specs.Codes.{AreOfPlant};
ghost use Rattle.node_reports.specs.Commands.{AreNumbered, AreForPlant};
ghost use Rattle.node_reports.specs.Journals.{firsts_of, IsLawful};
ghost use Rattle.node_reports.specs.Reports.{IsFittingBook, AreJournalsOf, AreInBook, AreAnswers, RunsAgain, CanBeMadeAgain, AreTold, AreByTicket, IsCollectFault};

use crate::collector::agreeing::agreed_if;
use crate::collector::looking::find_out;
use crate::collector::told::told_faults;
use crate::collector::unanswered::unanswered_tickets;
use crate::command::Command;
use crate::journal::Journal;
use crate::node_fault::NodeFault;
use crate::plant_book::PlantBook;
use crate::report::Report;
use crate::run_fault::RunFault;
pub use agreeing::agreed;
use book::Book;
use plant::Plant;
use std::alloc::Global;
use std::thread::Threads;

/// The report of what the threads did, if the book and the journals agree, and answer the commands. Each journal is looked at in a thread of its own where one can be made.
pub fn collect<R: Threads + Sync>(
    rt: &R,
    alloc: Global,
    plant: &Plant,
    max_number: u32,
    commands: &[Command],
    book: Book,
    journals: Vec<Journal>,
    faults: Vec<NodeFault>,
) -> Result<Report, RunFault>
    requires numbered { AreNumbered commands.now }
    requires resources { AreForPlant plant.now commands.now }
    requires lawful { All (IsLawful plant.now (firsts_of journals.items) max_number) journals.items }
    requires of_plant { AreOfPlant plant.now book.entries }
    ensures fitting { IfOk result (λ r. IsFittingBook r.book r.journals) }
    ensures journals { IfOk result (λ r. AreJournalsOf plant.now max_number r.journals) }
    ensures made { IfOk result (λ r. AreInBook r.book.entries r.journals) }
    ensures answers { IfOk result (λ r. AreAnswers commands.now r.book.entries r.journals r.unanswered) }
    ensures faults { IfOk result (λ r. AreTold plant.now commands.now r.journals r.unanswered r.node_faults) }
    ensures noted { IfOk result (λ r. AreByTicket faults.items r.node_faults) }
    ensures again { IfOk result (λ r. RunsAgain plant.now max_number r.book r.journals) }
    ensures made_again { IfOk result (λ r. CanBeMadeAgain plant.now max_number r.book r.journals) }
    ensures kept { IfOk result (λ r. (r.book ≡ book) × (r.journals ≡ journals.items)) }
    ensures fault { IfErr result (IsCollectFault plant.now commands.now book journals.items faults.items) }
{
    let found = find_out(rt, alloc, plant, commands, &book, journals.as_slice())?;
    let PlantBook { book, journals } = agreed_if(plant, max_number, book, journals, found.agree)?;
    if !found.are_honest {
        return Err(RunFault::Stranger);
    }
    let unanswered = unanswered_tickets(rt, alloc, commands, book.entries())?;
    let node_faults = told_faults(
        alloc,
        plant,
        commands,
        journals.as_slice(),
        unanswered.as_slice(),
        faults,
    )?;
    if !found.are_rising {
        return Err(RunFault::Doubled);
    }
    Ok(Report {
        book,
        journals,
        unanswered,
        node_faults,
    })
}
