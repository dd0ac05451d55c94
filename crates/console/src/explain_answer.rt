ghost use Rattle.std.specs.Prelude.{◌≡◌, IfOk, Some};
ghost use Rattle.guidance.specs.Explaining.{all_kinds};
ghost use Rattle.console.specs.ExplainAnswer.{EndsExplain, EndsTold};

use crate::command_fault::CommandFault;
use crate::faults::{print_failure, print_unwritten, print_word_refusal};
use crate::piped::Piped;
use crate::refusals::WordRefusal;
use crate::status::DONE;
use guidance::{explain, kinds};
use std::io;
use std::io::Write;
use text_lines::write_text;

/// Writes a text; the status.
fn write_told<R: Eprint, W: Write>(rt: &R, text: &str, writer: &mut Piped<W>) -> io::Result<u8>
    ensures { IfOk result (EndsTold text.now) }
{
    match write_text(writer, text) {
        Ok(()) => Ok(DONE),
        Err(_) => print_unwritten(rt, writer.is_closed),
    }
}

/// Writes a text to standard output; the status.
fn answer_with<R: Print + Eprint>(rt: &R, text: &str) -> io::Result<u8>
    ensures { IfOk result (EndsTold text.now) }
{
    write_told(rt, text, &mut Piped::new(io::writer(rt)))
}

/// Writes what is told of the kinds of this name; the status.
pub fn answer_kind<R: Print + Eprint + AllocGlobal>(rt: &R, kind: &str) -> io::Result<u8>
    ensures { IfOk result (EndsExplain (Some kind.entry)) }
{
    let Ok(text) = explain(rt.alloc(), kind) else {
        return print_failure(rt, CommandFault::Memory);
    };
    if text.is_empty() {
        return print_word_refusal(rt, WordRefusal::NoKind(kind));
    }
    answer_with(rt, text.as_str())
}

/// Lists all kinds; the status.
pub fn answer_kinds<R: Print + Eprint + AllocGlobal>(rt: &R) -> io::Result<u8>
    ensures { IfOk result (EndsTold all_kinds) }
{
    match kinds(rt.alloc()) {
        Ok(text) => answer_with(rt, text.as_str()),
        Err(_) => print_failure(rt, CommandFault::Memory),
    }
}
