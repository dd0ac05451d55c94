ghost use Rattle.std.specs.Prelude.{◌≡◌, ◌<◌, ◌∷◌, [], ℕ, All, IfOk, IfSome, IsTrue, Some};
ghost use Rattle.drawings.specs.declared.coil.CoilKind.{CoilKind};
ghost use Rattle.scan_steps.specs.declared.step.Step.{Step};
ghost use Rattle.scan_steps.specs.declared.step.BoundCoil.{BoundCoil};
ghost use Rattle.power_flow.specs.Steps.Circuit.{IsBoolAt, IsRung};

use declared_names::{Declarations, Declared, Kind};
use drawings::CoilKind;
use scan_steps::{BoundBox, BoundCoil, Rung, Step, VariableContact};
use std::alloc::{AllocError, Global};

/// The contacts of the only step, if it is a rung.
fn only_contacts(steps: &[Step]) -> Option<&[VariableContact]>
    ensures { IfSome result (λ contacts. (row : ℕ) × (number : ℕ)
        × (steps.now ≡ Step.Rung row number contacts.now ∷ [])) }
{
    if steps.len() != 1 {
        return None;
    }
    match &steps[0] {
        Step::Rung(_, _, contacts) => Some(contacts.contacts()),
        _ => None,
    }
}

/// The place of the variable of the only coil, if that is plain.
fn only_plain_coil(coils: &[BoundCoil]) -> Option<usize>
    ensures { IfSome result (λ place. (coil : BoundCoil) × (coils.now ≡ coil ∷ [])
        × (coil.kind ≡ CoilKind.Plain) × (coil.place ≡ Some place)) }
{
    if coils.len() != 1 {
        return None;
    }
    match coils[0].kind {
        CoilKind::Plain => coils[0].place,
        _ => None,
    }
}

/// Whether all contacts are of names of which there are so many.
fn are_within(contacts: &[VariableContact], count: usize) -> bool
    ensures { IsTrue result → All (λ v. v.place < count) contacts.now }
{
    for contact in contacts {
        if contact.place as usize >= count {
            return false;
        }
    }
    true
}

/// Whether a BOOL is declared at a place.
fn is_bool(declarations: &Declarations, place: usize) -> bool
    ensures { IsTrue result → IsBoolAt declarations.now place }
{
    match declarations.declared_at(place) {
        Some(Declared::Input(kind) | Declared::Output(kind) | Declared::Local(kind)) => {
            kind == Kind::Bool
        }
        Some(Declared::Instance(_)) | None => false,
    }
}

/// The rung that a network is, if it is one with a plain coil.
pub fn lone_rung(
    alloc: Global,
    declarations: &Declarations,
    steps: &[Step],
    coils: &[BoundCoil],
    boxes: &[BoundBox],
) -> Result<Option<Rung>, AllocError>
    ensures { IfOk result (λ found. IfSome found (λ r.
        IsRung declarations.now steps.now coils.now boxes.now r.contacts.items r.coil)) }
{
    let Some(contacts) = only_contacts(steps) else {
        return Ok(None);
    };
    let Some(coil) = only_plain_coil(coils) else {
        return Ok(None);
    };
    if !boxes.is_empty() {
        return Ok(None);
    }
    if !are_within(contacts, declarations.len()) {
        return Ok(None);
    }
    if !is_bool(declarations, coil) {
        return Ok(None);
    }
    let contacts = Vec::from_slice(alloc, contacts)?;
    Ok(Some(Rung { contacts, coil }))
}
