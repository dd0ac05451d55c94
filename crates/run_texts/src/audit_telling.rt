ghost use Rattle.std.specs.Prelude.{◌≡◌, IfOk, IfErr};
ghost use Rattle.node_reports.specs.Reports.{AreJournalsOf, RunsAgain, CanBeMadeAgain};
ghost use Rattle.run_texts.specs.AuditText.{is_all_shown, last_line, TellsAudit, TellsAuditPart};

use crate::audit_text::write_audit;
use crate::replay::replay;
use crate::report_text::replay_line;
use audit::{Audited, JournalFile};
use plant::Plant;
use std::alloc::Global;
use std::io::Write;
use std::sync::Arc;
use text_lines::{SendFault, write_text};

/// Whether all is shown of an audit.
fn is_all_shown(audited: &Audited) -> bool
    ensures { result ≡ is_all_shown audited.now }
{
    audited.unshown.as_slice().is_empty() && audited.without.as_slice().is_empty()
}

/// The last line of an audit, of which all is shown or not.
fn last_line(is_shown: bool, equal: bool) -> &'static str
    ensures { result.now ≡ last_line is_shown equal }
{
    if is_shown {
        return replay_line(equal);
    }
    if equal {
        "REPLAY of what is shown equal\n"
    } else {
        "REPLAY of what is shown differs\n"
    }
}

/// Writes what an audit has shown: a line for each evaluation, then for each line from which on a journal can't be shown
/// and for each resource without a journal, and last whether one thread makes the same evaluations, and, where not all is
/// shown, that this is of what is shown. It tells whether all is shown.
///
/// After `Write` what went out is a prefix, and not all, and after `Memory` there is no last line.
pub fn tell_audit<W: Write>(
    alloc: Global,
    plant: Arc<Plant>,
    files: &[JournalFile],
    audited: &Audited,
    writer: &mut W,
) -> Result<bool, SendFault>
    requires journals { AreJournalsOf plant.value 4294967295 audited.now.journals }
    requires again { RunsAgain plant.value 4294967295 audited.now.book audited.now.journals }
    requires made_again { CanBeMadeAgain plant.value 4294967295 audited.now.book audited.now.journals }
    ensures ok { IfOk result
        (TellsAudit plant.value files.now audited.now (W.contents writer.old) (W.contents writer.new)) }
    ensures fault { IfErr result
        (TellsAuditPart plant.value files.now audited.now (W.contents writer.old) (W.contents writer.new)) }
{
    write_audit(alloc, &plant, files, audited, writer)?;
    let equal = replay(alloc, plant, &audited.book, audited.journals.as_slice())?;
    let is_shown = is_all_shown(audited);
    write_text(writer, last_line(is_shown, equal))?;
    Ok(is_shown)
}
