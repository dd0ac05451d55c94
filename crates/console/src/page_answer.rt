ghost use Rattle.std.specs.Prelude.{◌≡◌, OnOk, IfOk, IfErr};
ghost use Rattle.std.specs.Io.KnownBytes.{Appends};
ghost use Rattle.page.specs.Page.{page_of};
ghost use Rattle.console.specs.PageAnswer.{ExplainsPage, EndsPage};

use crate::command_fault::CommandFault;
use crate::faults::print_failure;
use crate::files::any_text;
use crate::status::DONE;
use page::page_of;
use std::alloc::Global;
use std::io;
use std::io::Write;
use std::rt::Files;
use text_lines::write_text;

/// Writes the page of a text.
pub fn obey_page<W: Write>(alloc: Global, text: &str, writer: &mut W) -> Result<(), CommandFault>
    ensures ok { OnOk result (Appends (W.contents writer.old) (W.contents writer.new) (page_of text.now)) }
    ensures fault { IfErr result (ExplainsPage text.now (W.contents writer.old) (W.contents writer.new)) }
{
    let Ok(page) = page_of(alloc, text) else {
        return Err(CommandFault::Memory);
    };
    match write_text(writer, page.as_str()) {
        Ok(()) => Ok(()),
        Err(_) => Err(CommandFault::Write),
    }
}

/// Writes the page of a text, or tells why that can't be; the status.
fn write_page<R: Eprint, W: Write>(
    rt: &R,
    alloc: Global,
    text: &str,
    writer: &mut W,
) -> io::Result<u8>
    ensures { IfOk result EndsPage }
{
    match obey_page(alloc, text, writer) {
        Ok(()) => Ok(DONE),
        Err(fault) => print_failure(rt, fault),
    }
}

/// Writes the page of the text of a file, or of standard input where that is `-`; the status.
pub fn answer_page<R: Files + Input + Print + Eprint + AllocGlobal>(
    rt: &R,
    file: &str,
) -> io::Result<u8>
    ensures { IfOk result EndsPage }
{
    let text = match any_text(rt, file)? {
        Ok(text) => text,
        Err(status) => return Ok(status),
    };
    write_page(rt, rt.alloc(), text.as_str(), &mut io::writer(rt))
}
