//! The audit of the journals of a plant's nodes.

ghost use Rattle.std.specs.Prelude.{◌≡◌, ◌≤◌, false, IfOk, OnOk, length, map};
ghost use Rattle.node_reports.specs.Reports.{IsFittingBook, AreJournalsOf, AreInBook, RunsAgain, CanBeMadeAgain};
ghost use Rattle.audit.specs.Delivered.{AreDelivered, AreHeardTruly};
ghost use Rattle.audit.specs.Reasons.{skipped_in};
ghost use Rattle.audit.specs.Told.{AreToldBy};
ghost use Rattle.audit.specs.Steps.Settled.{AreSettled};
ghost use Rattle.audit.specs.Steps.Standings.{AuditedBook, empty_book, journal_in, AreFrom, AreJournalsFrom, IsOfSame};
ghost use Rattle.audit.specs.declared.follower.Follower.{Follower as FollowerValue};

use crate::book_of_audit::BookOfAudit;
use crate::follower::Follower;
use crate::journal_file::JournalFile;
use crate::line::Line;
use crate::reading::{Readings, read_journals};
use crate::reason::Unshown;
use crate::telling::{all_unshown, all_without};
use book::Book;
use node_reports::{Journal, Journals, PlantBook, agreed};
use plant::Plant;
use std::alloc::{AllocError, Global};
use std::sync::Arc;

/// What is shown of the journals of a plant's nodes, and what can't be.
#[derive(Drop)]
pub struct Audited {
    /// All evaluations that are shown.
    pub book: Book,
    /// What each resource did, as far as it is shown. Each begins in incarnation 0, in which it does nothing.
    pub journals: Journals,
    /// The lines from which on a journal can't be shown: at most one of each resource, in the plant's order, and behind
    /// them the first line of each file that has no START.
    pub unshown: Vec<Unshown>,
    /// The resources of which there is no run.
    pub without: Vec<usize>,
}

/// The resources before their first lines.
fn followers_of(
    alloc: Global,
    plant: &Arc<Plant>,
    resources: Vec<Vec<Line>>,
) -> Result<Vec<Follower>, AllocError>
    requires { length resources.items ≡ length plant.now.value.resources }
    ensures many { IfOk result (λ fs. length fs.items ≡ length plant.now.value.resources) }
    ensures stand { IfOk result (λ fs. AreFrom (empty_book plant.now.value) 0 fs.items) }
    ensures lines { IfOk result (λ fs. map (λ (f : FollowerValue). f.lines) fs.items ≡ resources.items) }
{
    let first = vec![in alloc; 0_u32; plant.resources()]?;
    let mut followers = Vec::with_capacity(alloc, plant.resources())?;
    for lines in resources {
        let resource = followers.len();
        followers.push(Follower::new(alloc, plant, resource, first.as_slice(), lines)?)?;
    }
    Ok(followers)
}

/// Lets each resource go on as far as it can; whether one did a line.
fn go_round(
    alloc: Global,
    followers: Vec<Follower>,
    book: &mut BookOfAudit,
) -> Result<(Vec<Follower>, bool), AllocError>
    requires { AreFrom book.old 0 followers.items }
    ensures many { IfOk result (λ r. length r.0.items ≡ length followers.items) }
    ensures stand { IfOk result (λ r. AreFrom book.new 0 r.0.items) }
    ensures settled { IfOk result (λ r. r.1 ≡ false → AreSettled book.new r.0.items) }
    ensures lines { IfOk result (λ r. map (λ (f : FollowerValue). f.lines) r.0.items ≡ map (λ (f : FollowerValue). f.lines) followers.items) }
    ensures plant { OnOk result (IsOfSame book.old book.new) }
{
    let mut gone = Vec::with_capacity(alloc, followers.len())?;
    let mut any = false;
    for follower in followers {
        let (next, went) = follower.follow(alloc, book)?;
        gone.push(next)?;
        any = any || went;
    }
    Ok((gone, any))
}

/// Lets all resources go on until none can.
fn go_on(
    alloc: Global,
    followers: Vec<Follower>,
    book: &mut BookOfAudit,
) -> Result<Vec<Follower>, AllocError>
    requires { AreFrom book.old 0 followers.items }
    ensures many { IfOk result (λ fs. length fs.items ≡ length followers.items) }
    ensures stand { IfOk result (λ fs. AreFrom book.new 0 fs.items) }
    ensures settled { IfOk result (λ fs. AreSettled book.new fs.items) }
    ensures lines { IfOk result (λ fs. map (λ (f : FollowerValue). f.lines) fs.items ≡ map (λ (f : FollowerValue). f.lines) followers.items) }
    ensures plant { OnOk result (IsOfSame book.old book.new) }
{
    let mut followers = followers;
    for _round in 0..u64::MAX {
        let (gone, went) = go_round(alloc, followers, book)?;
        if !went {
            return Ok(gone);
        }
        followers = gone;
    }
    // A line was done in each round, and no memory has so many.
    Err(AllocError)
}

/// The journals that the resources have made.
fn journals_of(alloc: Global, followers: Vec<Follower>) -> Result<Vec<Journal>, AllocError>
    ensures many { IfOk result (λ js. length js.items ≡ length followers.items) }
    ensures journals { (b : AuditedBook) → AreFrom b 0 followers.items → IfOk result (λ js. AreJournalsFrom b 0 js.items) }
    ensures same { IfOk result (λ js. js.items ≡ map (λ (f : FollowerValue). journal_in f.standing) followers.items) }
{
    let mut journals = Vec::with_capacity(alloc, followers.len())?;
    for follower in followers {
        journals.push(follower.into_journal())?;
    }
    Ok(journals)
}

/// What is shown of the journals of a plant's nodes, and what can't be. The lines of all resources are done in turn, each
/// as soon as what it needs is there, until none can be done.
pub fn audit(alloc: Global, plant: Arc<Plant>, files: &[JournalFile]) -> Result<Audited, AllocError>
    ensures fitting { IfOk result (λ r. IsFittingBook r.book r.journals) }
    ensures journals { IfOk result (λ r. AreJournalsOf plant.value 4294967295 r.journals) }
    ensures made { IfOk result (λ r. AreInBook r.book.entries r.journals) }
    ensures again { IfOk result (λ r. RunsAgain plant.value 4294967295 r.book r.journals) }
    ensures made_again { IfOk result (λ r. CanBeMadeAgain plant.value 4294967295 r.book r.journals) }
    ensures delivered { IfOk result (λ r. AreDelivered r.book.entries r.journals) }
    ensures heard { IfOk result (λ r. AreHeardTruly r.journals) }
    ensures few { IfOk result (λ r. skipped_in r.journals ≤ 1000000) }
    ensures told { IfOk result (AreToldBy plant.value files.now) }
{
    let Readings {
        resources,
        without_start,
    } = read_journals(alloc, &plant, files)?;
    let mut book = BookOfAudit::new(alloc, Arc::try_clone(&plant)?)?;
    let followers = followers_of(alloc, &plant, resources)?;
    let followers = go_on(alloc, followers, &mut book)?;
    let unshown = all_unshown(alloc, followers.as_slice(), &book, without_start.as_slice())?;
    let without = all_without(alloc, followers.as_slice())?;
    let journals = journals_of(alloc, followers)?;
    match agreed(&plant, u32::MAX, book.into_book(), journals) {
        Ok(PlantBook { book, journals }) => Ok(Audited {
            book,
            journals,
            unshown,
            without,
        }),
        // What each resource makes is entered, so the journals and the book agree.
        Err(_) => unreachable!(),
    }
}
