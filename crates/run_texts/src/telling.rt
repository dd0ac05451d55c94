ghost use Rattle.std.specs.Prelude.{IfOk, IfErr};
ghost use Rattle.node_reports.specs.Reports.{AreJournalsOf, RunsAgain, CanBeMadeAgain};
ghost use Rattle.run_texts.specs.ReportText.{TellsReport, TellsPart};

use crate::replay::replay;
use crate::report_text::{replay_line, write_report};
use node_reports::Report;
use plant::Plant;
use std::alloc::Global;
use std::io::Write;
use std::sync::Arc;
use text_lines::{SendFault, write_text};

/// Writes what the threads of a run did: a line for each evaluation, then for each command that wasn't answered and for
/// each fault, and last whether one thread makes the same evaluations. It tells whether there was a fault.
///
/// After `Write` what went out is a prefix, and not all, and after `Memory` there is no last line.
pub fn tell_report<W: Write>(
    alloc: Global,
    plant: Arc<Plant>,
    report: &Report,
    writer: &mut W,
) -> Result<bool, SendFault>
    requires journals { AreJournalsOf plant.value 4294967295 report.now.journals }
    requires again { RunsAgain plant.value 4294967295 report.now.book report.now.journals }
    requires made_again { CanBeMadeAgain plant.value 4294967295 report.now.book report.now.journals }
    ensures ok { IfOk result (TellsReport plant.value report.now (W.contents writer.old) (W.contents writer.new)) }
    ensures fault { IfErr result (TellsPart plant.value report.now (W.contents writer.old) (W.contents writer.new)) }
{
    write_report(alloc, &plant, report, writer)?;
    let equal = replay(alloc, plant, &report.book, report.journals.as_slice())?;
    write_text(writer, replay_line(equal))?;
    Ok(!report.node_faults.as_slice().is_empty())
}
