//! Rows of a column that an upright joins.

ghost use Rattle.std.specs.Prelude.{◌≡◌, ◌<◌, ◌≤◌, ◌+◌, ◌⊎◌, ◌↔◌, ℕ, true, false, length, slice_set};
ghost use Rattle.scan_steps.specs.Conducting.{bit_at};
ghost use Rattle.scan_steps.specs.Steps.Passing.{AreJoined};

/// Whether any of the rows from first to last is ON.
fn is_any_on(rows: &[bool], first: usize, last: usize) -> bool
    requires { last < length rows.now }
    ensures { (result ≡ true) ↔ ((k : ℕ) × (first ≤ k) × (k ≤ last) × (bit_at rows.now k ≡ true)) }
{
    let mut on = false;
    for row in first..last + 1 {
        let here = rows[row];
        on = here || on;
    }
    on
}

/// Gives the rows from first to last one state.
fn set_rows(rows: &mut [bool], first: usize, last: usize, on: bool)
    requires { last < length rows.old }
    ensures long { length rows.new ≡ length rows.old }
    ensures within { (k : ℕ) → first ≤ k → k ≤ last → bit_at rows.new k ≡ on }
    ensures outside { (k : ℕ) → (k < first) ⊎ (last < k) → bit_at rows.new k ≡ bit_at rows.old k }
{
    for row in first..last + 1 {
        rows[row] = on;
    }
}

/// Where any of these rows is ON, all are.
fn join_many(rows: &mut [bool], first: usize, last: usize)
    requires { last < length rows.old }
    ensures { AreJoined first last rows.old rows.new }
{
    let on = is_any_on(rows, first, last);
    set_rows(rows, first, last, on);
}

/// Where one of this row and the next is ON, both are.
pub(crate) fn join_two(rows: &mut [bool], first: usize)
    requires { first + 1 < length rows.old }
    ensures { AreJoined first (first + 1) rows.old rows.new }
{
    let upper = rows[first];
    let lower = rows[first + 1];
    let on = upper || lower;
    rows[first] = on;
    rows[first + 1] = on;
}

/// Where one of this row and the next two is ON, all three are.
fn join_three(rows: &mut [bool], first: usize)
    requires { first + 2 < length rows.old }
    ensures { AreJoined first (first + 2) rows.old rows.new }
{
    let upper = rows[first];
    let middle = rows[first + 1];
    let lower = rows[first + 2];
    let on = upper || (middle || lower);
    rows[first] = on;
    rows[first + 1] = on;
    rows[first + 2] = on;
}

/// Where any of the rows from first to last is ON, all are.
pub(crate) fn join_rows(rows: &mut [bool], first: usize, last: usize)
    requires { last < length rows.old }
    ensures { AreJoined first last rows.old rows.new }
{
    let further = last.saturating_sub(first);
    if further == 1 {
        join_two(rows, first);
    } else if further == 2 {
        join_three(rows, first);
    } else {
        join_many(rows, first, last);
    }
}

/// Nothing leads to the row below this one, and all three from this one on are ON where this one or the third is.
pub(crate) fn join_over(rows: &mut [bool], first: usize)
    requires { first + 2 < length rows.old }
    ensures { AreJoined first (first + 2) (slice_set rows.old (first + 1) false) rows.new }
{
    let upper = rows[first];
    let lower = rows[first + 2];
    let on = upper | lower;
    rows[first] = on;
    rows[first + 1] = on;
    rows[first + 2] = on;
}

/// Nothing leads to this row, and where any of the rows from first to last is ON, all are.
pub(crate) fn join_off(rows: &mut [bool], row: u8, first: u8, last: u8)
    requires row { row < length rows.old }
    requires last { last < length rows.old }
    ensures { AreJoined first last (slice_set rows.old row false) rows.new }
{
    let row = row as usize;
    let first = first as usize;
    let last = last as usize;
    if row == first + 1 && last == first + 2 {
        join_over(rows, first);
    } else {
        rows[row] = false;
        join_rows(rows, first, last);
    }
}

/// The row below this one takes its state.
pub(crate) fn go_down(rows: &mut [bool], row: usize)
    requires { row + 1 < length rows.old }
    ensures { AreJoined row (row + 1) (slice_set rows.old (row + 1) false) rows.new }
{
    let on = rows[row];
    rows[row + 1] = on;
}

/// A row takes the state of the row below.
pub(crate) fn go_up(rows: &mut [bool], row: usize)
    requires { row + 1 < length rows.old }
    ensures { AreJoined row (row + 1) (slice_set rows.old row false) rows.new }
{
    let on = rows[row + 1];
    rows[row] = on;
}
