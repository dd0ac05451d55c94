//! One look at each journal, beside the book and the commands, each in a thread of its own.

ghost use Rattle.std.specs.Prelude.{◌≡◌, ◌↔◌, ◌<◌, IsTrue, IfOk, Some, All, length, map, slice_get};
ghost use Rattle.node_reports.specs.declared.journal.Journal.{Journal};
ghost use Rattle.node_reports.specs.Codes.{AreOfPlant};
ghost use Rattle.node_reports.specs.Commands.{AreNumbered};
ghost use Rattle.node_reports.specs.Journals.{made};
ghost use Rattle.node_reports.specs.Reports.{incarnations_of};
ghost use Rattle.node_reports.specs.Steps.Comparing.{AreByCodeOf, MadeByCodeOf, MadeOfPlant};
ghost use Rattle.node_reports.specs.Steps.Looking.{IsHonestStep, IsLooked, AreLooked, IsFound};

use crate::collector::agreeing::agree_if;
use crate::collector::agreement::are_made;
use crate::collector::found::Found;
use crate::collector::hearings::{all_incarnations, has_heard_at};
use crate::collector::looked::Looked;
use crate::collector::obedience::{is_answer, is_commanded, is_rising};
use crate::command::Command;
use crate::incarnations::Incarnations;
use crate::journal::Journal;
use crate::step::Step;
use evaluation::Frame;
use plant::Plant;
use std::alloc::{AllocError, Global};
use std::thread;
use std::thread::Threads;
use world::Book;

/// Whether a step, where it made an evaluation or is a restart, answers a command, and where it made an evaluation, this has heard of incarnations alone in which the resources were.
fn is_honest(commands: &[Command], all: &[Incarnations], resource: usize, step: &Step) -> bool
    requires { AreNumbered commands.now }
    ensures { IsTrue result ↔ IsHonestStep commands.now all.now resource step.now }
{
    match step {
        Step::Took(_) | Step::Heard { .. } => true,
        Step::Made(frame) => is_answer(commands, frame) && has_heard_at(all, frame),
        Step::Restarted { .. } => is_commanded(commands, resource, step),
    }
}

/// Whether that holds of each step.
fn are_honest(commands: &[Command], all: &[Incarnations], resource: usize, steps: &[Step]) -> bool
    requires { AreNumbered commands.now }
    ensures { IsTrue result ↔ All (IsHonestStep commands.now all.now resource) steps.now }
{
    for k in 0..steps.len() {
        if !is_honest(commands, all, resource, &steps[k]) {
            return false;
        }
    }
    true
}

/// One look at a journal.
fn look(commands: &[Command], entries: &[Frame], all: &[Incarnations], journal: &Journal) -> Looked
    requires numbered { AreNumbered commands.now }
    requires by_code { All (λ x. AreByCodeOf x (made journal.now.steps)) entries.now }
    ensures { IsLooked commands.now entries.now all.now journal.now result }
{
    let steps = journal.steps.as_slice();
    Looked {
        is_made: are_made(journal.resource, steps, entries),
        is_honest: are_honest(commands, all, journal.resource, steps),
        is_rising: is_rising(steps),
    }
}

/// One look at the journal of a place.
fn look_at(
    commands: &[Command],
    entries: &[Frame],
    all: &[Incarnations],
    journals: &[Journal],
    place: usize,
) -> Looked
    requires place { place < length journals.now }
    requires numbered { AreNumbered commands.now }
    requires by_code { All (MadeByCodeOf journals.now) entries.now }
    ensures { (j : Journal) → slice_get journals.now place ≡ Some j → IsLooked commands.now entries.now all.now j result }
{
    look(commands, entries, all, &journals[place])
}

/// One look at each journal, each in a thread of its own where one can be made, beside these incarnations.
fn look_beside<R: Threads + Sync>(
    rt: &R,
    alloc: Global,
    commands: &[Command],
    entries: &[Frame],
    all: &[Incarnations],
    journals: &[Journal],
) -> Result<Vec<Looked>, AllocError>
    requires numbered { AreNumbered commands.now }
    requires by_code { All (MadeByCodeOf journals.now) entries.now }
    ensures { IfOk result (λ looked. AreLooked commands.now entries.now all.now journals.now looked.items) }
{
    let look = move |place: usize| -> Looked
        requires { (place < length journals.now) × AreNumbered commands.now × All (MadeByCodeOf journals.now) entries.now }
        ensures { (j : Journal) → slice_get journals.entry.now place ≡ Some j → IsLooked commands.entry.now entries.entry.now all.entry.now j result }
    { look_at(commands, entries, all, journals, place) };
    thread::map_indices(rt, alloc, journals.len(), &look)
}

/// One look at each journal, beside the incarnations in which the resources were.
fn look_at_all<R: Threads + Sync>(
    rt: &R,
    alloc: Global,
    commands: &[Command],
    entries: &[Frame],
    journals: &[Journal],
) -> Result<Vec<Looked>, AllocError>
    requires numbered { AreNumbered commands.now }
    requires by_code { All (MadeByCodeOf journals.now) entries.now }
    ensures { IfOk result (λ looked. AreLooked commands.now entries.now (map incarnations_of journals.now) journals.now looked.items) }
{
    let incarnations = all_incarnations(alloc, journals)?;
    look_beside(
        rt,
        alloc,
        commands,
        entries,
        incarnations.as_slice(),
        journals,
    )
}

/// Whether what each journal made are, in order, the entries of its resource.
fn all_made(looked: &[Looked]) -> bool
    ensures { IsTrue result ↔ All (λ l. IsTrue l.is_made) looked.now }
{
    looked.iter().all(|look| look.is_made)
}

/// Whether each journal answers commands, and has heard of incarnations alone in which the resources were.
fn all_honest(looked: &[Looked]) -> bool
    ensures { IsTrue result ↔ All (λ l. IsTrue l.is_honest) looked.now }
{
    looked.iter().all(|look| look.is_honest)
}

/// Whether the tickets of each journal rise.
fn all_rising(looked: &[Looked]) -> bool
    ensures { IsTrue result ↔ All (λ l. IsTrue l.is_rising) looked.now }
{
    looked.iter().all(|look| look.is_rising)
}

/// What the looks at all journals find.
pub(crate) fn find_out<R: Threads + Sync>(
    rt: &R,
    alloc: Global,
    plant: &Plant,
    commands: &[Command],
    book: &Book,
    journals: &[Journal],
) -> Result<Found, AllocError>
    requires numbered { AreNumbered commands.now }
    requires book { AreOfPlant plant.now book.now.entries }
    requires journals { MadeOfPlant plant.now journals.now }
    ensures { IfOk result (λ found. IsFound plant.now commands.now book.now journals.now found) }
{
    let looked = look_at_all(rt, alloc, commands, book.entries(), journals)?;
    let are_made = all_made(looked.as_slice());
    let are_honest = all_honest(looked.as_slice());
    let are_rising = all_rising(looked.as_slice());
    Ok(Found {
        agree: agree_if(book, plant, journals, are_made),
        are_honest,
        are_rising,
    })
}
