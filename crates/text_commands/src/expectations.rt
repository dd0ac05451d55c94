ghost use Rattle.std.specs.Prelude.{◌≡◌, ◌+◌, ◌<◌, ◌^◌, All, Some, IfOk, MatchOption, slice_get, string_bytes};
ghost use Rattle.std_blocks.specs.declared.value.Value.{Value as Held};
ghost use Rattle.declared_names.specs.declared.declarations.Declaration.{Declaration};
ghost use Rattle.text_commands.specs.Series.{IsOfVariable};
ghost use Rattle.text_commands.specs.TestText.{AgreesAt, IsFirstOther, IsOtherAt, IsOutcome};
ghost use Rattle.text_commands.specs.Steps.Testing.{GoesOn, IsFoundAt, slots_of};

use crate::difference::Difference;
use crate::series::Series;
use declared_names::Declarations;
use power_flow::State;
use std::alloc::{AllocError, Global};
use std_blocks::Value;

/// What a variable is after scan k, counted from 0, and what is expected of it, where that is another value.
fn other_value(k: usize, state: &State, row: &Series<'_>) -> Option<(Value, Value)>
    ensures { MatchOption result ((value wanted : Held) → IsOtherAt row.now k state.now.slots value wanted → ⊥)
        (λ found. IsOtherAt row.now k state.now.slots found.0 found.1) }
{
    let wanted = row.value(k)?;
    let value = state.get(row.place())?;
    if value.same(&wanted) {
        None
    } else {
        Some((value, wanted))
    }
}

/// The first variable that is another one after scan k, counted from 0, than is expected: its place, what it is, and what is
/// expected of it.
fn first_other(expected: &[Series<'_>], k: usize, state: &State) -> Option<(usize, Value, Value)>
    ensures { MatchOption result (AgreesAt expected.now k state.now.slots)
        (λ found. IsFirstOther expected.now k state.now.slots found.0 found.1 found.2) }
{
    for row in expected {
        if let Some((value, wanted)) = other_value(k, state, row) {
            return Some((row.place(), value, wanted));
        }
    }
    None
}

/// The name that is declared at a place.
fn name_at(alloc: Global, declarations: &Declarations, place: usize) -> Result<String, AllocError>
    requires { (d : Declaration) × (slice_get declarations.now place ≡ Some d) }
    ensures { IfOk result
        (λ name. (d : Declaration) × (slice_get declarations.now place ≡ Some d) × (string_bytes name ≡ d.name)) }
{
    match declarations.entry(place) {
        Some((name, _)) => String::from_str(alloc, name),
        None => Ok(String::new(alloc)),
    }
}

/// The first difference from what is expected after scan k, counted from 0, by the order of the words.
fn difference_at(
    alloc: Global,
    declarations: &Declarations,
    expected: &[Series<'_>],
    k: usize,
    state: &State,
) -> Result<Option<Difference>, AllocError>
    requires declared { All (IsOfVariable declarations.now) expected.now }
    requires counted { k + 1 < 2 ^ 64 }
    ensures { IfOk result (IsFoundAt declarations.now expected.now k state.now.slots) }
{
    let Some((place, value, wanted)) = first_other(expected, k, state) else {
        return Ok(None);
    };
    let name = name_at(alloc, declarations, place)?;
    Ok(Some(Difference {
        name,
        scan: k + 1,
        value,
        expected: wanted,
    }))
}

/// The first difference after scan k too, counted from 0, by what was found after the scans before.
pub(crate) fn found_after(
    found: Option<Difference>,
    alloc: Global,
    declarations: &Declarations,
    expected: &[Series<'_>],
    k: usize,
    state: &State,
) -> Result<Option<Difference>, AllocError>
    requires declared { All (IsOfVariable declarations.now) expected.now }
    requires counted { k + 1 < 2 ^ 64 }
    ensures { IfOk result (GoesOn declarations.now expected.now k state.now.slots found) }
{
    match found {
        Some(difference) => Ok(Some(difference)),
        None => difference_at(alloc, declarations, expected, k, state),
    }
}

/// The first difference between what is expected and the states after each scan: by scan, and then by the order of the words.
pub fn first_difference(
    alloc: Global,
    declarations: &Declarations,
    expected: &[Series<'_>],
    states: &[State],
) -> Result<Option<Difference>, AllocError>
    requires { All (IsOfVariable declarations.now) expected.now }
    ensures { IfOk result (IsOutcome declarations.now expected.now (slots_of states.now)) }
{
    let mut found = None;
    for (k, state) in states.iter().enumerate() {
        found = found_after(found, alloc, declarations, expected, k, state)?;
    }
    Ok(found)
}
