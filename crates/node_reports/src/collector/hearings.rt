ghost use Rattle.std.specs.Prelude.{◌≡◌, ◌↔◌, ◌++◌, IsTrue, IfOk, OnOk};
ghost use Rattle.std.specs.List.{filter_map};
ghost use Rattle.std.specs.Option.{option_to_list};
ghost use Rattle.node_reports.specs.Reports.{restarted_in, incarnations_of};
ghost use Rattle.node_reports.specs.Steps.Collecting.{IsAt, AreAt, AreIncarnationsOf};

use crate::incarnations::Incarnations;
use crate::journal::Journal;
use crate::step::Step;
use evaluation::Frame;
use std::alloc::{AllocError, Global};

/// Appends the incarnation of a step, where it is a restart.
fn push_restarted(incarnations: &mut Incarnations, step: &Step) -> Result<(), AllocError>
    ensures { OnOk result (incarnations.new ≡ incarnations.old ++ option_to_list (restarted_in step.now)) }
{
    match step {
        Step::Took(_) | Step::Made(_) | Step::Heard { .. } => Ok(()),
        Step::Restarted { incarnation, .. } => incarnations.push(*incarnation),
    }
}

/// Appends the incarnations of the restarts among these steps.
fn push_all(incarnations: &mut Incarnations, steps: &[Step]) -> Result<(), AllocError>
    ensures { OnOk result (incarnations.new ≡ incarnations.old ++ filter_map restarted_in steps.now) }
{
    for k in 0..steps.len() {
        push_restarted(incarnations, &steps[k])?;
    }
    Ok(())
}

/// The incarnations in which a resource was, as its journal tells: the first one, and those of its restarts.
fn incarnations_of(alloc: Global, journal: &Journal) -> Result<Incarnations, AllocError>
    ensures { IfOk result (λ those. those ≡ incarnations_of journal.now) }
{
    let mut incarnations = Incarnations::of(alloc, journal.first)?;
    push_all(&mut incarnations, journal.steps.as_slice())?;
    Ok(incarnations)
}

/// For each journal, the incarnations in which its resource was.
pub(crate) fn all_incarnations(
    alloc: Global,
    journals: &[Journal],
) -> Result<Vec<Incarnations>, AllocError>
    ensures { IfOk result (λ all. AreIncarnationsOf journals.now all.items) }
{
    let mut all = Vec::with_capacity(alloc, journals.len())?;
    for journal in journals {
        all.push(incarnations_of(alloc, journal)?)?;
    }
    Ok(all)
}

/// Whether an incarnation is among those at this place, if there are any.
fn is_at(all: &[Incarnations], place: usize, incarnation: u32) -> bool
    ensures { IsTrue result ↔ IsAt all.now place incarnation }
{
    match all.get(place) {
        None => true,
        Some(those) => those.have(incarnation),
    }
}

/// Whether each number that was heard is among the incarnations at its place.
fn are_at(all: &[Incarnations], heard: &[u32]) -> bool
    ensures { IsTrue result ↔ AreAt all.now heard.now }
{
    for place in 0..heard.len() {
        if !is_at(all, place, heard[place]) {
            return false;
        }
    }
    true
}

/// Whether that holds of what an evaluation has heard.
pub(crate) fn has_heard_at(all: &[Incarnations], frame: &Frame) -> bool
    ensures { IsTrue result ↔ AreAt all.now frame.now.heard }
{
    are_at(all, frame.evaluation().heard())
}
