ghost use Rattle.std.specs.Prelude.{◌≡◌, ◌↔◌, [], ◌∷◌, IsTrue, MatchOption, List, All, drop, length};
ghost use Rattle.evaluation.specs.Meaning.{Evaluated};
ghost use Rattle.node_reports.specs.Journals.{made};
ghost use Rattle.node_reports.specs.Reports.{entries_of, AreInBook};
ghost use Rattle.node_reports.specs.Steps.Collecting.{BeginsAt, AllBegin, HasGoneOn, CantGoOn};
ghost use Rattle.node_reports.specs.Steps.Comparing.{AreByCodeOf, MadeByCodeOf};

use crate::comparing::are_equal;
use crate::journal::Journal;
use crate::step::Step;
use evaluation::Frame;

/// The next evaluation made, from a place on, after the place behind it.
fn next_made(steps: &[Step], from: usize) -> Option<(usize, &Frame)>
    ensures { MatchOption result (made (drop from steps.now) ≡ [])
        (λ next. made (drop from steps.now) ≡ next.1.now ∷ made (drop next.0 steps.now)) }
{
    for k in from..steps.len() {
        if let Step::Made(frame) = &steps[k] {
            return Some((k + 1, frame));
        }
    }
    None
}

/// The place behind the next evaluation made, from a place on, if that is this one.
fn behind(steps: &[Step], from: usize, entry: &Frame) -> Option<usize>
    requires { AreByCodeOf entry.now (made (drop from steps.now)) }
    ensures { MatchOption result ((rest : List Evaluated) → made (drop from steps.now) ≡ entry.now ∷ rest → ⊥)
        (λ to. made (drop from steps.now) ≡ entry.now ∷ made (drop to steps.now)) }
{
    match next_made(steps, from) {
        Some((to, frame)) => {
            if are_equal(frame, entry) {
                Some(to)
            } else {
                None
            }
        }
        None => None,
    }
}

/// The place to which the steps of a resource go on by an entry, if they can: behind the evaluation that they made next
/// where the entry is of this resource, and where they are for any other one.
fn advanced(steps: &[Step], from: usize, resource: usize, entry: &Frame) -> Option<usize>
    requires { AreByCodeOf entry.now (made steps.now) }
    ensures { MatchOption result (CantGoOn resource steps.now from entry.now)
        (λ to. HasGoneOn resource steps.now from to entry.now) }
{
    if entry.name().task.resource != resource {
        return Some(from);
    }
    behind(steps, from, entry)
}

/// Whether steps made nothing from a place on.
fn is_at_end(steps: &[Step], at: usize) -> bool
    ensures { IsTrue result ↔ (made (drop at steps.now) ≡ []) }
{
    next_made(steps, at).is_none()
}

/// Whether what the steps of a resource made are, in order, the entries of this resource. It goes through the entries,
/// and the steps along with them.
pub(crate) fn are_made(resource: usize, steps: &[Step], entries: &[Frame]) -> bool
    requires { All (λ x. AreByCodeOf x (made steps.now)) entries.now }
    ensures { IsTrue result ↔ (made steps.now ≡ entries_of resource entries.now) }
{
    let mut at = 0_usize;
    for k in 0..entries.len() {
        match advanced(steps, at, resource, &entries[k]) {
            Some(next) => at = next,
            None => return false,
        }
    }
    is_at_end(steps, at)
}

/// Whether that holds of a journal.
fn is_in_book(journal: &Journal, entries: &[Frame]) -> bool
    requires { All (λ x. AreByCodeOf x (made journal.now.steps)) entries.now }
    ensures { IsTrue result ↔ (made journal.now.steps ≡ entries_of journal.now.resource entries.now) }
{
    are_made(journal.resource, journal.steps.as_slice(), entries)
}

/// Whether what each journal made are, in order, the entries of its resource.
pub(crate) fn all_made(entries: &[Frame], journals: &[Journal]) -> bool
    requires { All (MadeByCodeOf journals.now) entries.now }
    ensures { IsTrue result ↔ AreInBook entries.now journals.now }
{
    for k in 0..journals.len() {
        if !is_in_book(&journals[k], entries) {
            return false;
        }
    }
    true
}

/// Whether a journal is that of the resource at a place, and begins in this place's incarnation.
fn begins_at(first: &[u32], place: usize, journal: &Journal) -> bool
    ensures { IsTrue result ↔ BeginsAt first.now place journal.now }
{
    match first.get(place) {
        Some(incarnation) => journal.resource == place && *incarnation == journal.first,
        None => false,
    }
}

/// Whether there is a journal for each first incarnation, that of the resource at its place, which begins in this
/// place's incarnation.
pub(crate) fn all_begin(first: &[u32], journals: &[Journal]) -> bool
    ensures { IsTrue result ↔ AllBegin first.now journals.now }
{
    if journals.len() != first.len() {
        return false;
    }
    for place in 0..journals.len() {
        if !begins_at(first, place, &journals[place]) {
            return false;
        }
    }
    true
}
