ghost use Rattle.std.specs.Prelude.{◌≡◌, ◌<◌, ◌≤◌, ◌⊎◌, ◌↔◌, ℕ, Bool, IfOk, OnOk, true, false, length, slice_set};
ghost use Rattle.gates.specs.Signals.{signal_value};
ghost use Rattle.gates.specs.Gates.{Agrees, IsBuilt};
ghost use Rattle.scan_steps.specs.Conducting.{bit_at};
ghost use Rattle.scan_steps.specs.Steps.Passing.{AreJoined};
ghost use Rattle.scan_gates.specs.Encoded.{bits_at};

use gates::{Gates, Signal};
use std::alloc::AllocError;

/// Whether any of the rows from first to last is ON.
fn any_on(
    gates: &mut Gates,
    rows: &[Signal],
    first: usize,
    last: usize,
) -> Result<Signal, AllocError>
    requires { last < length rows.now }
    ensures { IfOk result (λ s. IsBuilt gates.old gates.new (λ v. (signal_value v s ≡ true)
        ↔ ((k : ℕ) × (first ≤ k) × (k ≤ last) × (bit_at (bits_at v rows.now) k ≡ true)))) }
{
    let mut on = gates.constant(false);
    for row in first..last + 1 {
        on = gates.or(on, rows[row])?;
    }
    Ok(on)
}

/// Gives the rows from first to last one state.
fn set_rows(rows: &mut [Signal], first: usize, last: usize, on: Signal)
    requires { last < length rows.old }
    ensures within { (v : ℕ → Bool) (k : ℕ) → first ≤ k → k ≤ last → bit_at (bits_at v rows.new) k ≡ signal_value v on }
    ensures outside { (v : ℕ → Bool) (k : ℕ) → (k < first) ⊎ (last < k)
        → bit_at (bits_at v rows.new) k ≡ bit_at (bits_at v rows.old) k }
{
    for row in first..last + 1 {
        rows[row] = on;
    }
}

/// Where any of the rows from first to last is ON, all are.
pub(crate) fn join_rows(
    gates: &mut Gates,
    rows: &mut [Signal],
    first: usize,
    last: usize,
) -> Result<(), AllocError>
    requires { last < length rows.old }
    ensures { OnOk result (IsBuilt gates.old gates.new
        (λ v. AreJoined first last (bits_at v rows.old) (bits_at v rows.new))) }
{
    let on = any_on(gates, rows, first, last)?;
    set_rows(rows, first, last, on);
    Ok(())
}

/// Gives a row a state that is always the same.
pub(crate) fn set_row(gates: &Gates, rows: &mut [Signal], row: usize, on: bool)
    requires { row < length rows.old }
    ensures { (v : ℕ → Bool) → Agrees v gates.now → bits_at v rows.new ≡ slice_set (bits_at v rows.old) row on }
{
    rows[row] = gates.constant(on);
}

/// Nothing leads to this row, and where any of the rows from first to last is ON, all are.
pub(crate) fn join_off(
    gates: &mut Gates,
    rows: &mut [Signal],
    row: usize,
    first: usize,
    last: usize,
) -> Result<(), AllocError>
    requires row { row < length rows.old }
    requires last { last < length rows.old }
    ensures { OnOk result (IsBuilt gates.old gates.new
        (λ v. AreJoined first last (slice_set (bits_at v rows.old) row false) (bits_at v rows.new))) }
{
    set_row(gates, rows, row, false);
    join_rows(gates, rows, first, last)
}
