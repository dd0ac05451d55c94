//! What happens before a scan.

ghost use Rattle.std.specs.Prelude.{◌≡◌, ◌+◌, ◌<◌, ◌^◌, List, OnOk, All, slice_get};
ghost use Rattle.declared_names.specs.declared.declarations.Declaration.{Declaration};
ghost use Rattle.scan_steps.specs.Slots.{AreSlotsOf};
ghost use Rattle.power_flow.specs.LadderValue.{Fits};
ghost use Rattle.text_commands.specs.Series.{IsOfVariable, set_before, set_value};
ghost use Rattle.text_commands.specs.Restarts.{opened_memories, opened_slots};
ghost use Rattle.text_commands.specs.Steps.Opening.{IsOpened};

use crate::given::Given;
use crate::restarting::restart;
use crate::series::Series;
use power_flow::{Ladder, State};
use std::alloc::{AllocError, Global};

/// Sets a variable to its value for scan k, counted from 0, if it has one.
fn set_row(row: &Series<'_>, k: usize, state: &mut State)
    requires { (ds : List Declaration) × AreSlotsOf ds state.old.slots × IsOfVariable ds row.now }
    ensures slots { state.new
        ≡ record state.old { slots = set_value state.old.slots row.now.place (slice_get row.now.values k) } }
    ensures declared { (ds : List Declaration) → AreSlotsOf ds state.old.slots → AreSlotsOf ds state.new.slots }
{
    if let Some(value) = row.value(k) {
        let _set = state.set(row.place(), value);
    }
}

/// Sets each variable to its value for scan k, counted from 0, if it has one.
fn set_rows(rows: &[Series<'_>], k: usize, state: &mut State)
    requires { (ds : List Declaration) × AreSlotsOf ds state.old.slots × All (IsOfVariable ds) rows.now }
    ensures slots { state.new ≡ record state.old { slots = set_before rows.now k state.old.slots } }
    ensures declared { (ds : List Declaration) → AreSlotsOf ds state.old.slots → AreSlotsOf ds state.new.slots }
{
    for row in rows {
        set_row(row, k, state);
    }
}

/// Restarts a ladder before scan k, counted from 0, where that is asked for.
fn restart_before(
    alloc: Global,
    ladder: &Ladder,
    given: &Given<'_>,
    k: usize,
    state: &mut State,
) -> Result<(), AllocError>
    requires fits { Fits ladder.now state.old }
    requires counted { k + 1 < 2 ^ 64 }
    ensures slots { OnOk result
        (state.new.slots ≡ opened_slots ladder.now.declarations given.now k state.old.slots) }
    ensures memories { OnOk result
        (state.new.memories ≡ opened_memories ladder.now.networks given.now k state.old.memories) }
    ensures fits { OnOk result (Fits ladder.now state.new) }
{
    if given.restarts_at(k) {
        *state = restart(alloc, ladder, given.kept, state)?;
    }
    Ok(())
}

/// Restarts a ladder before scan k, counted from 0, where that is asked for, and then sets each variable to its value
/// for the scan, if it has one.
pub(crate) fn open_scan(
    alloc: Global,
    ladder: &Ladder,
    given: &Given<'_>,
    k: usize,
    state: &mut State,
) -> Result<(), AllocError>
    requires fits { Fits ladder.now state.old }
    requires rows { All (IsOfVariable ladder.now.declarations) given.now.rows }
    requires counted { k + 1 < 2 ^ 64 }
    ensures { OnOk result (IsOpened ladder.now given.now k state.old state.new) }
{
    restart_before(alloc, ladder, given, k, state)?;
    set_rows(given.rows, k, state);
    Ok(())
}
