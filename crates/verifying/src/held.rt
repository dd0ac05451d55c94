//! The words NAME=VALUE, which hold inputs.

ghost use Rattle.std.specs.Prelude.{◌≡◌, [], ◌∷◌, IfOk, IfErr, MatchOption};
ghost use Rattle.std_blocks.specs.declared.value.Value.{Value as HeldValue};
ghost use Rattle.verifying.specs.Steps.Marks.{HeldRead, HeldRefused, HoldsOf, HoldsNoneOf};

use crate::inputs::is_marked;
use crate::setup::Setting;
use crate::verify_fault::{HeldFault, HeldFaultKind, VerifyFault};
use std::alloc::Global;
use std_blocks::Value;
use text_commands::Series;

/// The value of a series that has one.
#[tactic(auto, using(crate::proofs::Holding::one_found, crate::proofs::Holding::none_found))]
fn one_value(series: &Series<'_>) -> Option<Value>
    ensures { MatchOption result
        ((value : HeldValue) → series.now.values ≡ value ∷ [] → ⊥)
        (λ value. series.now.values ≡ value ∷ []) }
{
    if series.len() == 1 {
        series.value(0)
    } else {
        None
    }
}

/// The input that a series of one value holds.
fn read_held(marks: &[bool], series: &Series<'_>) -> Result<Setting, HeldFaultKind>
    ensures ok { IfOk result (HoldsOf marks.now series.now) }
    ensures err { IfErr result (HoldsNoneOf marks.now series.now) }
{
    let Some(value) = one_value(series) else {
        return Err(HeldFaultKind::NotOneValue);
    };
    if is_marked(marks, series.place()) {
        return Err(HeldFaultKind::NoInput);
    }
    Ok(Setting {
        place: series.place(),
        value,
    })
}

/// The inputs that these hold, in order.
pub(crate) fn held_settings(
    alloc: Global,
    marks: &[bool],
    rows: &[Series<'_>],
) -> Result<Vec<Setting>, VerifyFault>
    ensures ok { IfOk result (λ held. HeldRead marks.now rows.now held.items) }
    ensures err { IfErr result (HeldRefused marks.now rows.now) }
{
    let mut held = Vec::new(alloc);
    for (number, row) in rows.iter().enumerate() {
        match read_held(marks, row) {
            Ok(setting) => held.push(setting)?,
            Err(kind) => return Err(VerifyFault::Held(HeldFault { number, kind })),
        }
    }
    Ok(held)
}
