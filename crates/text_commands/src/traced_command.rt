ghost use Rattle.std.specs.Prelude.{IfOk, IfErr, All, string_bytes};
ghost use Rattle.text_commands.specs.Rows.{texts};
ghost use Rattle.text_commands.specs.Series.{IsOfVariable};
ghost use Rattle.text_commands.specs.Sources.{source_of};
ghost use Rattle.text_commands.specs.TestText.{ExplainsTest};
ghost use Rattle.text_commands.specs.Traced.{WritesTraced};
ghost use Rattle.text_commands.specs.Steps.Tracing.{IsTracedTest};

use crate::expectations::first_difference;
use crate::form::Form;
use crate::given::Given;
use crate::ladder_source::LadderSource;
use crate::restarting::kept_places;
use crate::series::Series;
use crate::source_ladder::read_source;
use crate::test_command::{eval_test, trace_form};
use crate::test_words::{read_test_words, test_scan_count};
use crate::text_command_fault::TextCommandFault;
use crate::traced::Traced;
use crate::tracks::state_texts;
use power_flow::Ladder;
use std::alloc::{AllocError, Global};
use std::io::Write;
use text_lines::write_text;
use traces::{TraceTexts, Wanted};

/// The text of all scans of a test, the first difference, if there is one, and the texts of their trace.
fn trace_whole(
    alloc: Global,
    ladder: &Ladder,
    drawing: &str,
    given: &Given<'_>,
    expected: &[Series<'_>],
    dt: u32,
    form: Form,
    wanted: Wanted<'_>,
) -> Result<(String, Traced), AllocError>
    requires rows { All (IsOfVariable ladder.now.declarations) given.now.rows }
    requires expected { All (IsOfVariable ladder.now.declarations) expected.now }
    ensures { IfOk result (λ made. IsTracedTest drawing.now ladder.now.declarations ladder.now.networks dt form
        wanted.entry given.now expected.now (string_bytes made.0) made.1) }
{
    let scans = test_scan_count(given, expected);
    let (states, text) = trace_form(alloc, ladder, drawing, given, scans, dt, form)?;
    let difference = first_difference(alloc, ladder.declarations(), expected, &states)?;
    let texts = state_texts(alloc, ladder.declarations(), &states, dt, wanted)?;
    Ok((text, Traced { difference, texts }))
}

/// Evaluates the ladder of a source as `eval_traced` does, where some text is wanted.
fn eval_whole<W: Write>(
    alloc: Global,
    source: LadderSource<'_>,
    words: &[&str],
    restarts: &[usize],
    dt: u32,
    form: Form,
    wanted: Wanted<'_>,
    writer: &mut W,
) -> Result<Traced, TextCommandFault>
    ensures ok { IfOk result
        (WritesTraced (source_of source.entry) (texts words.now) restarts.now dt form wanted.entry
        (W.contents writer.old) (W.contents writer.new)) }
    ensures fault { IfErr result
        (ExplainsTest (source_of source.entry) (texts words.now) restarts.now dt form (W.contents writer.old)
        (W.contents writer.new)) }
{
    let drawn = read_source(alloc, source)?;
    let ladder: &Ladder = &drawn.ladder;
    let drawing = drawn.drawing.as_str();
    let test = read_test_words(alloc, ladder.declarations(), words)?;
    let kept = kept_places(alloc, ladder, &drawn.retained)?;
    let given = Given {
        rows: &test.rows,
        restarts,
        kept: &kept,
    };
    let expected: &[Series<'_>] = &test.expected;
    let (text, traced) = trace_whole(alloc, ladder, drawing, &given, expected, dt, form, wanted)?;
    write_text(writer, text.as_str())?;
    Ok(traced)
}

/// Evaluates the ladder of a source as `eval_test` does, and makes the texts of its trace that are wanted: of all its
/// variables, with the value after each scan. A scan is shown for `dt` milliseconds, and for one where that is 0. The
/// first one begins at 0.
///
/// Where a text is wanted nothing is written before the last scan. After a fault there are no texts; `Text` and `Word`
/// come before anything is written, after `Write` what went out is a prefix and not all, after `Memory` a prefix.
pub fn eval_traced<W: Write>(
    alloc: Global,
    source: LadderSource<'_>,
    words: &[&str],
    restarts: &[usize],
    dt: u32,
    form: Form,
    wanted: Wanted<'_>,
    writer: &mut W,
) -> Result<Traced, TextCommandFault>
    ensures ok { IfOk result
        (WritesTraced (source_of source.entry) (texts words.now) restarts.now dt form wanted.entry
        (W.contents writer.old) (W.contents writer.new)) }
    ensures fault { IfErr result
        (ExplainsTest (source_of source.entry) (texts words.now) restarts.now dt form (W.contents writer.old)
        (W.contents writer.new)) }
{
    if !wanted.is_nothing() {
        return eval_whole(alloc, source, words, restarts, dt, form, wanted, writer);
    }
    match eval_test(alloc, source, words, restarts, dt, form, writer) {
        Ok(difference) => Ok(Traced {
            difference,
            texts: TraceTexts::none(),
        }),
        Err(fault) => Err(fault),
    }
}
