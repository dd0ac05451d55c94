ghost use Rattle.std.specs.Prelude.{IfOk, IfErr, All, string_bytes};
ghost use Rattle.power_flow.specs.LadderValue.{Fits};
ghost use Rattle.text_commands.specs.Series.{IsOfVariable};
ghost use Rattle.text_commands.specs.Steps.Showing.{IsShownScan, IsShownTrace, StopsShown, WritesShown};

use crate::difference::Difference;
use crate::expectations::found_after;
use crate::given::Given;
use crate::line::state_line;
use crate::live_drawing::push_drawing;
use crate::opening::open_scan;
use crate::series::Series;
use power_flow::{Ladder, State};
use std::alloc::{AllocError, Global};
use std::io::Write;
use text_lines::{SendFault, write_text};

/// Makes a scan; its line, and the drawing with what has power in it.
fn shown_scan(
    alloc: Global,
    ladder: &Ladder,
    drawing: &str,
    state: &mut State,
    dt: u32,
    color: bool,
) -> Result<String, AllocError>
    requires { Fits ladder.now state.old }
    ensures shown { IfOk result
        (λ text. IsShownScan drawing.now color ladder.now dt state.old state.new (string_bytes text)) }
    ensures fits { Fits ladder.now state.new }
{
    let shown = ladder.power(alloc, state, dt)?;
    let mut text = state_line(alloc, ladder.declarations(), state)?;
    push_drawing(&mut text, alloc, drawing, ladder, &shown, color)?;
    Ok(text)
}

/// The states after each of so many scans, and the lines of the scans with their drawings.
pub fn trace_drawings(
    alloc: Global,
    ladder: &Ladder,
    drawing: &str,
    given: &Given<'_>,
    scans: usize,
    dt: u32,
    color: bool,
) -> Result<(Vec<State>, String), AllocError>
    requires { All (IsOfVariable ladder.now.declarations) given.now.rows }
    ensures { IfOk result (λ made. IsShownTrace drawing.now color ladder.now.declarations ladder.now.networks dt given.now
        scans made.0.items (string_bytes made.1)) }
{
    let mut states = Vec::new(alloc);
    let mut text = String::new(alloc);
    let mut state = ladder.initial(alloc)?;
    for k in 0..scans {
        open_scan(alloc, ladder, given, k, &mut state)?;
        let shown = shown_scan(alloc, ladder, drawing, &mut state, dt, color)?;
        text.push_str(shown.as_str())?;
        states.push(state.try_copy()?)?;
    }
    Ok((states, text))
}

/// Makes so many scans, and writes after each its line and its drawing; the first difference from what is expected, if
/// there is one.
pub fn write_drawings<W: Write>(
    alloc: Global,
    ladder: &Ladder,
    drawing: &str,
    given: &Given<'_>,
    expected: &[Series<'_>],
    scans: usize,
    dt: u32,
    color: bool,
    writer: &mut W,
) -> Result<Option<Difference>, SendFault>
    requires rows { All (IsOfVariable ladder.now.declarations) given.now.rows }
    requires expected { All (IsOfVariable ladder.now.declarations) expected.now }
    ensures ok { IfOk result
        (WritesShown drawing.now color ladder.now.declarations ladder.now.networks dt given.now expected.now
        scans (W.contents writer.old) (W.contents writer.new)) }
    ensures stopped { IfErr result
        (λ fault. StopsShown drawing.now color ladder.now.declarations ladder.now.networks dt given.now scans fault
        (W.contents writer.old) (W.contents writer.new)) }
{
    let mut state = ladder.initial(alloc)?;
    let mut found = None;
    for k in 0..scans {
        open_scan(alloc, ladder, given, k, &mut state)?;
        let text = shown_scan(alloc, ladder, drawing, &mut state, dt, color)?;
        write_text(writer, text.as_str())?;
        found = found_after(found, alloc, ladder.declarations(), expected, k, &state)?;
    }
    Ok(found)
}
