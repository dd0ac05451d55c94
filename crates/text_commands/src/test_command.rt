ghost use Rattle.std.specs.Prelude.{◌≡◌, IfOk, IfErr, All, string_bytes};
ghost use Rattle.std.specs.List.{flat_map};
ghost use Rattle.text_commands.specs.Rows.{texts};
ghost use Rattle.text_commands.specs.Series.{IsOfVariable};
ghost use Rattle.text_commands.specs.Lines.{line_of};
ghost use Rattle.text_commands.specs.Chart.{chart_of};
ghost use Rattle.text_commands.specs.Sources.{source_of};
ghost use Rattle.text_commands.specs.TestText.{WritesTest, ExplainsTest};
ghost use Rattle.text_commands.specs.Steps.Testing.{IsFormTrace, IsTestTrace, IsTraceOf, slots_of};

use crate::chart::{chart_text, rows_text};
use crate::difference::Difference;
use crate::eval_command::write_scans;
use crate::expectations::first_difference;
use crate::form::Form;
use crate::given::Given;
use crate::ladder_source::LadderSource;
use crate::opening::open_scan;
use crate::restarting::kept_places;
use crate::series::Series;
use crate::shown_scans::{trace_drawings, write_drawings};
use crate::source_ladder::read_source;
use crate::test_words::{read_test_words, test_scan_count};
use crate::text_command_fault::TextCommandFault;
use power_flow::{Ladder, State};
use std::alloc::{AllocError, Global};
use std::io::Write;
use text_lines::write_text;

/// The states after each of so many scans.
fn trace_scans(
    alloc: Global,
    ladder: &Ladder,
    given: &Given<'_>,
    scans: usize,
    dt: u32,
) -> Result<Vec<State>, AllocError>
    requires { All (IsOfVariable ladder.now.declarations) given.now.rows }
    ensures { IfOk result
        (λ states. IsTraceOf ladder.now.declarations ladder.now.networks dt given.now scans states.items) }
{
    let mut states = Vec::new(alloc);
    let mut state = ladder.initial(alloc)?;
    for k in 0..scans {
        open_scan(alloc, ladder, given, k, &mut state)?;
        ladder.scan(&mut state, dt);
        states.push(state.try_copy()?)?;
    }
    Ok(states)
}

/// The states after each of so many scans, and a line for each.
fn trace_rows(
    alloc: Global,
    ladder: &Ladder,
    given: &Given<'_>,
    scans: usize,
    dt: u32,
) -> Result<(Vec<State>, String), AllocError>
    requires { All (IsOfVariable ladder.now.declarations) given.now.rows }
    ensures { IfOk result (λ made. IsTraceOf ladder.now.declarations ladder.now.networks dt given.now scans made.0.items
        × (string_bytes made.1 ≡ flat_map (line_of ladder.now.declarations) (slots_of made.0.items))) }
{
    let states = trace_scans(alloc, ladder, given, scans, dt)?;
    let text = rows_text(alloc, ladder.declarations(), &states)?;
    Ok((states, text))
}

/// The states after each of so many scans, and their chart.
fn trace_chart(
    alloc: Global,
    ladder: &Ladder,
    given: &Given<'_>,
    scans: usize,
    dt: u32,
) -> Result<(Vec<State>, String), AllocError>
    requires { All (IsOfVariable ladder.now.declarations) given.now.rows }
    ensures { IfOk result (λ made. IsTraceOf ladder.now.declarations ladder.now.networks dt given.now scans made.0.items
        × (string_bytes made.1 ≡ chart_of ladder.now.declarations (slots_of made.0.items))) }
{
    let states = trace_scans(alloc, ladder, given, scans, dt)?;
    let text = chart_text(alloc, ladder.declarations(), &states)?;
    Ok((states, text))
}

/// The states after each of so many scans, and what is written of them.
pub(crate) fn trace_form(
    alloc: Global,
    ladder: &Ladder,
    drawing: &str,
    given: &Given<'_>,
    scans: usize,
    dt: u32,
    form: Form,
) -> Result<(Vec<State>, String), AllocError>
    requires { All (IsOfVariable ladder.now.declarations) given.now.rows }
    ensures { IfOk result (λ made. IsFormTrace form drawing.now ladder.now.declarations ladder.now.networks dt given.now
        scans made.0.items (string_bytes made.1)) }
{
    match form {
        Form::Rows => trace_rows(alloc, ladder, given, scans, dt),
        Form::Drawings { color } => {
            trace_drawings(alloc, ladder, drawing, given, scans, dt, color)
        }
        Form::Chart => trace_chart(alloc, ladder, given, scans, dt),
    }
}

/// The text of all scans of a test, and the first difference, if there is one.
fn trace_test(
    alloc: Global,
    ladder: &Ladder,
    drawing: &str,
    given: &Given<'_>,
    expected: &[Series<'_>],
    dt: u32,
    form: Form,
) -> Result<(String, Option<Difference>), AllocError>
    requires rows { All (IsOfVariable ladder.now.declarations) given.now.rows }
    requires expected { All (IsOfVariable ladder.now.declarations) expected.now }
    ensures { IfOk result (λ made. IsTestTrace drawing.now ladder.now.declarations ladder.now.networks dt form
        given.now expected.now (string_bytes made.0) made.1) }
{
    let scans = test_scan_count(given, expected);
    let (states, text) = trace_form(alloc, ladder, drawing, given, scans, dt, form)?;
    let found = first_difference(alloc, ladder.declarations(), expected, &states)?;
    Ok((text, found))
}

/// Evaluates the ladder of a source, and looks whether all is as the words expect; the first difference, if there is
/// one.
///
/// A word NAME=VALUES sets its variable before scan k to the k-th value, and a word NAME==VALUES tells what it is to be
/// after it; behind the last value nothing is set, and nothing expected. VALUES are as [`eval`](crate::eval) has them.
/// Before each scan of `restarts`, counted from 1, the ladder restarts: all is as at first, but for the inputs and the
/// variables of VAR RETAIN, which keep what they are; then the words set theirs. There are as many scans as the longest
/// of all words has values, but at least one, and those up to the last restart. `dt` is the time between two scans in
/// milliseconds. The form says what is written of the scans, each as it comes. Where a chart is asked for, nothing is
/// written before the last scan.
///
/// `Text` and `Word` come before anything is written; a plant that has no program type of the name is a `Word`. After
/// `Write` what went out is a prefix and not all, after `Memory` a prefix.
pub fn eval_test<W: Write>(
    alloc: Global,
    source: LadderSource<'_>,
    words: &[&str],
    restarts: &[usize],
    dt: u32,
    form: Form,
    writer: &mut W,
) -> Result<Option<Difference>, TextCommandFault>
    ensures ok { IfOk result
        (WritesTest (source_of source.entry) (texts words.now) restarts.now dt form (W.contents writer.old)
        (W.contents writer.new)) }
    ensures fault { IfErr result
        (ExplainsTest (source_of source.entry) (texts words.now) restarts.now dt form (W.contents writer.old)
        (W.contents writer.new)) }
{
    let drawn = read_source(alloc, source)?;
    let ladder: &Ladder = &drawn.ladder;
    let drawing = drawn.drawing.as_str();
    let test = read_test_words(alloc, ladder.declarations(), words)?;
    let kept = kept_places(alloc, ladder, &drawn.retained)?;
    let given = Given {
        rows: &test.rows,
        restarts,
        kept: &kept,
    };
    let expected: &[Series<'_>] = &test.expected;
    let scans = test_scan_count(&given, expected);
    match form {
        Form::Rows => Ok(write_scans(alloc, ladder, &given, expected, scans, dt, writer)?),
        Form::Drawings { color } => Ok(write_drawings(
            alloc, ladder, drawing, &given, expected, scans, dt, color, writer,
        )?),
        Form::Chart => {
            let (text, found) = trace_test(alloc, ladder, drawing, &given, expected, dt, form)?;
            write_text(writer, text.as_str())?;
            Ok(found)
        }
    }
}
