ghost use Rattle.std.specs.Prelude.{OnOk, IfOk, IfErr, All};
ghost use Rattle.text_commands.specs.Rows.{texts};
ghost use Rattle.text_commands.specs.Series.{IsOfVariable};
ghost use Rattle.text_commands.specs.EvalText.{IsLadderOfDrawing, IsLadderOfText, StopsScans, WritesAll, Explains};
ghost use Rattle.text_commands.specs.Steps.Testing.{WritesRun};
ghost use Rattle.text_commands.specs.Steps.Refusing.{RefusesLadder, RefusesLadderOfText};

use crate::comments::without_comments;
use crate::difference::Difference;
use crate::expectations::found_after;
use crate::given::Given;
use crate::line::state_line;
use crate::opening::open_scan;
use crate::series::Series;
use crate::settings::{read_settings, scan_count};
use crate::text_command_fault::TextCommandFault;
use crate::text_fault::TextFault;
use declared_names::Declarations;
use drawings::Drawing;
use ladder_text::ReadText;
use name_faults::Guess;
use network::Graph;
use power_flow::Ladder;
use std::alloc::Global;
use std::io::Write;
use text_lines::{SendFault, write_text};

/// The ladder of a text as it stands, its names declared by their use.
fn ladder_of_text(alloc: Global, drawing: &str) -> Result<Ladder, TextCommandFault>
    ensures ok { IfOk result (λ ladder. IsLadderOfText drawing.now ladder.declarations ladder.networks) }
    ensures err { IfErr result (RefusesLadderOfText drawing.now) }
{
    let drawing = Drawing::read(alloc, drawing, 1)?;
    let graph = Graph::build(alloc, &drawing)?;
    let declarations = Declarations::guess(alloc, &graph)?;
    Ok(Ladder::bind(alloc, graph, declarations)?)
}

/// The ladder of a drawing, its names declared by their use. A text that is ill drawn is read with its comments
/// emptied: rows that begin with `(*` and end with `*)`.
pub fn read_ladder(alloc: Global, drawing: &str) -> Result<Ladder, TextCommandFault>
    ensures ok { IfOk result (λ ladder. IsLadderOfDrawing drawing.now ladder.declarations ladder.networks) }
    ensures err { IfErr result (RefusesLadder drawing.now) }
{
    match ladder_of_text(alloc, drawing) {
        Err(TextCommandFault::Text(TextFault::Draw(_))) => {
            let text = without_comments(alloc, drawing)?;
            ladder_of_text(alloc, text.as_str())
        }
        read => read,
    }
}

/// Makes so many scans, and writes a line after each; the first difference from what is expected, if there is one.
pub fn write_scans<W: Write>(
    alloc: Global,
    ladder: &Ladder,
    given: &Given<'_>,
    expected: &[Series<'_>],
    scans: usize,
    dt: u32,
    writer: &mut W,
) -> Result<Option<Difference>, SendFault>
    requires rows { All (IsOfVariable ladder.now.declarations) given.now.rows }
    requires expected { All (IsOfVariable ladder.now.declarations) expected.now }
    ensures ok { IfOk result
        (WritesRun ladder.now.declarations ladder.now.networks dt given.now expected.now scans
        (W.contents writer.old) (W.contents writer.new)) }
    ensures stopped { IfErr result
        (λ fault. StopsScans ladder.now.declarations ladder.now.networks dt given.now scans fault
        (W.contents writer.old) (W.contents writer.new)) }
{
    let mut state = ladder.initial(alloc)?;
    let mut found = None;
    for k in 0..scans {
        open_scan(alloc, ladder, given, k, &mut state)?;
        ladder.scan(&mut state, dt);
        let line = state_line(alloc, ladder.declarations(), &state)?;
        write_text(writer, line.as_str())?;
        found = found_after(found, alloc, ladder.declarations(), expected, k, &state)?;
    }
    Ok(found)
}

/// Writes the values of all variables after each scan of a drawing, one line a scan.
///
/// A word NAME=VALUES sets its variable before scan k to the k-th value, and behind the last one sets nothing. VALUES
/// are items with commas between, V or V*COUNT; V is 1 to 1,000 digits 0 or 1 for a BOOL, a value each, a number for an
/// INT, a duration for a TIME. A word has at most 1,000,000 values. There are as many scans as the longest has values,
/// and one without words. `dt` is the time between two scans in milliseconds. `Text` and `Word` come before anything is
/// written. After `Write` what went out is a prefix and not all, after `Memory` a prefix.
pub fn eval<W: Write>(
    alloc: Global,
    drawing: &str,
    words: &[&str],
    dt: u32,
    writer: &mut W,
) -> Result<(), TextCommandFault>
    ensures ok { OnOk result
        (WritesAll drawing.now (texts words.now) dt (W.contents writer.old) (W.contents writer.new)) }
    ensures fault { IfErr result
        (Explains drawing.now (texts words.now) dt (W.contents writer.old) (W.contents writer.new)) }
{
    let ladder = read_ladder(alloc, drawing)?;
    let rows = read_settings(alloc, ladder.declarations(), words)?;
    let scans = scan_count(&rows);
    let given = Given {
        rows: &rows,
        restarts: &[],
        kept: &[],
    };
    write_scans(alloc, &ladder, &given, &[], scans, dt, writer)?;
    Ok(())
}
