//! The files of an audit's journals.

ghost use Rattle.std.specs.Prelude.{◌≡◌, string_bytes, IfOk};
ghost use Rattle.text_commands.specs.Rows.{texts};
ghost use Rattle.plc_main.specs.AuditCommand.{AreNamed};

use audit::JournalFile;
use console::file_bytes;
use std::io;
use std::rt::Files;

/// The journal in a file, or the status after its fault was told.
fn file_journal<R: Files + Eprint + AllocGlobal>(
    rt: &R,
    name: &str,
) -> io::Result<Result<JournalFile, u8>>
    ensures { IfOk result (λ read. IfOk read (λ journal. string_bytes journal.name ≡ name.now)) }
{
    let text = match file_bytes(rt, name)? {
        Ok(text) => text,
        Err(status) => return Ok(Err(status)),
    };
    let name = String::from_str(rt.alloc(), name)?;
    Ok(Ok(JournalFile { name, text }))
}

/// The journals in files, or the status after the fault of one was told.
pub(crate) fn file_journals<R: Files + Eprint + AllocGlobal>(
    rt: &R,
    names: &[&str],
) -> io::Result<Result<Vec<JournalFile>, u8>>
    ensures { IfOk result (λ read. IfOk read (λ journals. AreNamed journals.items (texts names.now))) }
{
    let mut journals = Vec::new(rt.alloc());
    for name in names {
        match file_journal(rt, name)? {
            Ok(journal) => journals.push(journal)?,
            Err(status) => return Ok(Err(status)),
        }
    }
    Ok(Ok(journals))
}
