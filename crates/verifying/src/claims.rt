//! The names behind `--never` and `--given`.

ghost use Rattle.std.specs.Prelude.{◌≡◌, IfOk, IfErr, MatchOption, ℕ, Some, map};
ghost use Rattle.network.specs.Links.{Diagram};
ghost use Rattle.text_commands.specs.Rows.{texts};
ghost use Rattle.std.specs.Prelude.{List};
ghost use Rattle.verifying.specs.Questions.{IsBoolNamed};
ghost use Rattle.verifying.specs.Steps.Marks.{IsMarked, ClaimsRead, ClaimsRefused, GivenRefused, IsClaimFaultOf, IsClaimOf, IsNoClaimOf};

use crate::inputs::{is_bool_at, is_marked};
use crate::verify_fault::{ClaimFault, ClaimFaultKind, VerifyFault};
use declared_names::Declarations;
use std::alloc::{AllocError, Global};

/// The place of the BOOL variable of this name.
fn bool_named(declarations: &Declarations, name: &str) -> Option<usize>
    ensures { MatchOption result
        ((place : ℕ) → IsBoolNamed declarations.now name.now place → ⊥)
        (λ place. IsBoolNamed declarations.now name.now place) }
{
    let place = declarations.position(name)?;
    if is_bool_at(declarations, place) {
        Some(place)
    } else {
        None
    }
}

/// The place of the variable of this name, at which something stores.
fn read_name(
    declarations: &Declarations,
    marks: &[bool],
    name: &str,
) -> Result<usize, ClaimFaultKind>
    ensures ok { IfOk result (IsClaimOf declarations.now marks.now name.now) }
    ensures err { IfErr result (IsNoClaimOf declarations.now marks.now name.now) }
{
    let Some(place) = bool_named(declarations, name) else {
        return Err(ClaimFaultKind::NoVariable);
    };
    if !is_marked(marks, place) {
        return Err(ClaimFaultKind::NeverStored);
    }
    Ok(place)
}

/// The places of the variables of these names, in order; or the first name that is refused.
fn read_names(
    alloc: Global,
    declarations: &Declarations,
    marks: &[bool],
    names: &[&str],
) -> Result<Result<Vec<usize>, ClaimFault>, AllocError>
    ensures ok { IfOk result (λ read. IfOk read (λ places. ClaimsRead declarations.now marks.now (texts names.now) places.items)) }
    ensures err { IfOk result (λ read. IfErr read (IsClaimFaultOf declarations.now marks.now (texts names.now))) }
{
    let mut places = Vec::new(alloc);
    for (number, name) in names.iter().enumerate() {
        match read_name(declarations, marks, name) {
            Ok(place) => places.push(place)?,
            Err(kind) => return Ok(Err(ClaimFault { number, kind })),
        }
    }
    Ok(Ok(places))
}

/// The places of the variables that the claims name, in order.
pub(crate) fn read_claims(
    alloc: Global,
    declarations: &Declarations,
    marks: &[bool],
    names: &[&str],
) -> Result<Vec<usize>, VerifyFault>
    ensures ok { IfOk result (λ places. ClaimsRead declarations.now marks.now (texts names.now) places.items) }
    ensures err { IfErr result (ClaimsRefused declarations.now marks.now (texts names.now)) }
{
    match read_names(alloc, declarations, marks, names)? {
        Ok(places) => Ok(places),
        Err(fault) => Err(VerifyFault::Claim(fault)),
    }
}

/// The places of the variables that are given, in order.
pub(crate) fn read_given(
    alloc: Global,
    declarations: &Declarations,
    marks: &[bool],
    names: &[&str],
) -> Result<Vec<usize>, VerifyFault>
    ensures ok { IfOk result (λ places. ClaimsRead declarations.now marks.now (texts names.now) places.items) }
    ensures err { IfErr result (GivenRefused declarations.now marks.now (texts names.now)) }
{
    match read_names(alloc, declarations, marks, names)? {
        Ok(places) => Ok(places),
        Err(fault) => Err(VerifyFault::Given(fault)),
    }
}
