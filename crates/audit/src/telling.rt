//! What can't be shown of the journals, and why.

ghost use Rattle.std.specs.Prelude.{◌≡◌, ◌++◌, IfOk, OnOk, IfSome, length, map, slice_get};
ghost use Rattle.std.specs.Option.{option_copied, option_map, option_to_list};
ghost use Rattle.audit.specs.Reasons.{present_of};
ghost use Rattle.audit.specs.Told.{without_start, all_without};
ghost use Rattle.audit.specs.Steps.Standings.{journal_in, AreFrom};
ghost use Rattle.audit.specs.Steps.Settled.{IsReasonFor, IsToldOf, AreToldOf, HaveTold, IsSettled, AreSettled, course_of};
ghost use Rattle.audit.specs.declared.follower.Follower.{Follower as FollowerValue};

use crate::book_of_audit::BookOfAudit;
use crate::follower::Follower;
use crate::line::Place;
use crate::needs::Need;
use crate::outcome::Outcome;
use crate::reason::{Reason, Unshown};
use std::alloc::{AllocError, Global};

/// Why a line can't be done that needs what isn't there, by what is shown of the resource of which it needs it; `present` is the
/// incarnation to which that one has come.
#[tactic(auto, using(crate::proofs::Tellings::missing_none, crate::proofs::Tellings::missing_closed, crate::proofs::Tellings::missing_past, crate::proofs::Tellings::missing_unmade))]
fn reason_of(maker: Option<&Follower>, present: u32, need: Need) -> Reason
    requires { IfSome (option_copied maker) (λ (f : FollowerValue). present ≡ present_of (journal_in f.standing)) }
    ensures { IsReasonFor (option_map course_of (option_copied maker.entry)) need result }
{
    let Some(maker) = maker else {
        return Reason::Missing(need);
    };
    if present <= need.incarnation() {
        return if maker.is_open() {
            Reason::Waits(need)
        } else {
            Reason::Missing(need)
        };
    }
    match need {
        Need::Evaluation(name) => {
            if maker.was_in(name.incarnation) {
                Reason::Unmade(name)
            } else {
                Reason::Missing(need)
            }
        }
        // It went past that incarnation without being in it.
        Need::Incarnation { .. } => Reason::Missing(need),
    }
}

/// A resource at its place.
fn follower_at(followers: &[Follower], resource: usize) -> Option<&Follower>
    ensures { option_copied result ≡ slice_get followers.now resource }
{
    followers.get(resource)
}

/// The line of a resource that can't be done, and why.
fn unshown_of(followers: &[Follower], book: &BookOfAudit, follower: &Follower) -> Option<Unshown>
    requires stand { AreFrom book.now 0 followers.now }
    requires many { length book.now.skips ≡ length followers.now }
    requires settled { IsSettled book.now follower.now }
    ensures { IsToldOf book.now followers.now follower.now (option_to_list result) }
{
    let place = follower.lines.get(follower.trail.at)?.place;
    let reason = match follower.trail.last {
        Outcome::Stops(reason) => reason,
        Outcome::Waits(need) => {
            let maker = need.resource();
            reason_of(follower_at(followers, maker), book.present(maker), need)
        }
        Outcome::Done => return None,
    };
    Some(Unshown { place, reason })
}

/// The lines that can't be done: of each resource the first one.
fn open_lines(
    alloc: Global,
    followers: &[Follower],
    book: &BookOfAudit,
) -> Result<Vec<Unshown>, AllocError>
    requires stand { AreFrom book.now 0 followers.now }
    requires many { length book.now.skips ≡ length followers.now }
    requires settled { AreSettled book.now followers.now }
    ensures { IfOk result (λ unshown. AreToldOf book.now followers.now (length followers.now) unshown.items) }
{
    let mut unshown = Vec::new(alloc);
    for n in 0..followers.len() {
        if let Some(found) = unshown_of(followers, book, &followers[n]) {
            unshown.push(found)?;
        }
    }
    Ok(unshown)
}

/// Puts the first line of each file that has no START behind others.
fn push_without_start(unshown: &mut Vec<Unshown>, places: &[Place]) -> Result<(), AllocError>
    ensures { OnOk result (unshown.new.items ≡ unshown.old.items ++ map without_start places.now) }
{
    for place in places {
        unshown.push(Unshown {
            place: *place,
            reason: Reason::Syntax,
        })?;
    }
    Ok(())
}

/// The lines that can't be done: of each resource the first one, and behind them the first one of each file that has no
/// START.
pub(crate) fn all_unshown(
    alloc: Global,
    followers: &[Follower],
    book: &BookOfAudit,
    without_start: &[Place],
) -> Result<Vec<Unshown>, AllocError>
    requires stand { AreFrom book.now 0 followers.now }
    requires many { length book.now.skips ≡ length followers.now }
    requires settled { AreSettled book.now followers.now }
    ensures { IfOk result (λ all. HaveTold book.now followers.now without_start.now all.items) }
{
    let mut unshown = open_lines(alloc, followers, book)?;
    push_without_start(&mut unshown, without_start)?;
    Ok(unshown)
}

/// The resources of which there is no run.
pub(crate) fn all_without(alloc: Global, followers: &[Follower]) -> Result<Vec<usize>, AllocError>
    ensures { IfOk result (λ all. all.items ≡ all_without (map (λ (f : FollowerValue). f.lines) followers.now) (length followers.now)) }
{
    let mut without = Vec::new(alloc);
    for resource in 0..followers.len() {
        if followers[resource].lines.is_empty() {
            without.push(resource)?;
        }
    }
    Ok(without)
}
