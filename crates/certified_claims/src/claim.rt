ghost use Rattle.std.specs.Prelude.{◌≡◌, ◌<◌, ℕ, List, IfOk, Some, slice_get};
ghost use Rattle.transition_systems.specs.Certificates.{AreInductive};
ghost use Rattle.transition_systems.specs.Systems.{IsWhole, NeverBad, NeverBadWithin};
ghost use Rattle.ladder_systems.specs.LadderSystems.{IsSystemOf};
ghost use Rattle.verifying.specs.Needed.{IsSearched};
ghost use Rattle.verifying.specs.Preparing.{searched_of};
ghost use Rattle.verifying.specs.Runs.{SetupValue};
ghost use Rattle.certified_claims.specs.Certified.{IsCertified};

use crate::certificate_size::size_of;
use crate::replay::{rows_of, sets};
use crate::verdict::{Certified, CertifiedVerdict};
use clauses::Literal;
use invariant_search::{Found, find};
use ladder_systems::{never_bad_is_never, never_bad_within_is_never_within, system_of};
use needed_networks::slices_follow;
use std::alloc::{AllocError, Global};
use transition_systems::TransitionSystem;
use verifying::{Prepared, never_of_whole, whole_rows};

/// What a certificate shows that was checked.
fn holds(
    prepared: &Prepared,
    place: usize,
    system: &TransitionSystem,
    clauses: Vec<Vec<Literal>>,
) -> CertifiedVerdict
    requires searched { (claims : List ℕ) × (number : ℕ) × IsSearched prepared.now.whole claims prepared.now.idle.items
        (searched_of prepared.now.slice prepared.now.whole) × (slice_get claims number ≡ Some place) }
    requires system { IsSystemOf (searched_of prepared.now.slice prepared.now.whole) place system.now }
    requires whole { IsWhole system.now }
    requires inductive { AreInductive system.now clauses.items }
    requires never { NeverBad system.now }
    ensures { IsCertified prepared.now.whole (searched_of prepared.now.slice prepared.now.whole) place result }
{
    let _wide = prepared.searched().ladder().declarations();
    never_bad_is_never();
    never_of_whole();
    let size = size_of(&clauses, system.state.len());
    CertifiedVerdict::Holds(Certified { clauses, size })
}

/// What depths show that were checked.
fn undecided(
    prepared: &Prepared,
    place: usize,
    system: &TransitionSystem,
    depth: usize,
) -> CertifiedVerdict
    requires searched { (claims : List ℕ) × (number : ℕ) × IsSearched prepared.now.whole claims prepared.now.idle.items
        (searched_of prepared.now.slice prepared.now.whole) × (slice_get claims number ≡ Some place) }
    requires system { IsSystemOf (searched_of prepared.now.slice prepared.now.whole) place system.now }
    requires whole { 0 < depth → IsWhole system.now }
    requires never { NeverBadWithin system.now depth }
    ensures { IsCertified prepared.now.whole (searched_of prepared.now.slice prepared.now.whole) place result }
{
    let _wide = prepared.searched().ladder().declarations();
    never_bad_within_is_never_within();
    slices_follow();
    CertifiedVerdict::Undecided(depth)
}

/// Nothing is shown.
fn nothing() -> CertifiedVerdict
    ensures { (whole searched : SetupValue) (place : ℕ) → IsCertified whole searched place result }
{
    CertifiedVerdict::Undecided(0)
}

/// What a run shows, once it was done in the ladder: whoever found it isn't believed.
fn fails(
    alloc: Global,
    prepared: &Prepared,
    place: usize,
    found: Vec<Vec<bool>>,
) -> Result<CertifiedVerdict, AllocError>
    ensures { IfOk result (IsCertified prepared.now.whole (searched_of prepared.now.slice prepared.now.whole) place) }
{
    let whole = &prepared.whole;
    let rows = rows_of(alloc, found)?;
    let rows = whole_rows(alloc, &prepared.idle, whole.free(), &rows)?;
    if sets(alloc, whole, place, &rows)? {
        return Ok(CertifiedVerdict::Fails(rows));
    }
    Ok(nothing())
}

/// Looks by induction whether a run sets the variable at the place of a claim, with at most so many queries of the search.
pub fn certify_claim(
    alloc: Global,
    prepared: &Prepared,
    place: usize,
    effort: u64,
) -> Result<CertifiedVerdict, AllocError>
    requires { (claims : List ℕ) × (number : ℕ) × IsSearched prepared.now.whole claims prepared.now.idle.items
        (searched_of prepared.now.slice prepared.now.whole) × (slice_get claims number ≡ Some place) }
    ensures { IfOk result (IsCertified prepared.now.whole (searched_of prepared.now.slice prepared.now.whole) place) }
{
    let system = system_of(alloc, prepared.searched(), place)?;
    match find(alloc, &system, effort)? {
        Found::Certificate(certificate) => {
            Ok(holds(prepared, place, &system, certificate.clauses))
        }
        Found::Run(run) => fails(alloc, prepared, place, run.rows),
        Found::Ended(depth) => Ok(undecided(prepared, place, &system, depth)),
    }
}
