ghost use Rattle.std.specs.Prelude.{◌≡◌, IfOk, IfErr};
ghost use Rattle.std.specs.Option.{option_map};
ghost use Rattle.console.specs.Answers.{AreWantedFor, HasNoTrace, WritesAnswer, ExplainsAnswer, form_of, is_colored};
ghost use Rattle.console.specs.Endings.{EndsAfter, EndsText, status_of_difference};

use crate::answered::Answered;
use crate::command_fault::CommandFault;
use crate::faults::{
    FileText, Source, WordForm, print_difference, print_failure, print_fault_of_text,
};
use crate::files::{file_text, second_text, text_of};
use crate::piped::Piped;
use crate::request::{Color, TextRequest, TraceFiles, View};
use crate::status::DONE;
use crate::warned::warn;
use std::alloc::Global;
use std::io;
use std::io::Write;
use std::rt::{Clock, Files};
use text_commands::{
    Difference, Form, LadderSource, TextCommandFault, Traced, check, eval_traced, plan_text,
};
use text_lines::{OnTerminal, ToldLines};
use traces::{TraceTexts, Wanted};

/// Whether there is color.
fn is_colored(color: Color, terminal: bool) -> bool
    ensures { result ≡ is_colored color terminal }
{
    match color {
        Color::Always => true,
        Color::Auto => terminal,
        Color::Never => false,
    }
}

/// What is written of the scans.
fn form_of(view: View, color: Color, terminal: bool) -> Form
    ensures { result ≡ form_of view color terminal }
{
    match view {
        View::Rows => Form::Rows,
        View::Drawings => Form::Drawings {
            color: is_colored(color, terminal),
        },
        View::Chart => Form::Chart,
    }
}

/// The texts of a trace that are wanted for its files. A diagram has this title.
pub fn wanted_for<'a>(title: &'a str, files: TraceFiles<'_>) -> Wanted<'a>
    ensures { AreWantedFor title.entry.now files.entry result }
{
    Wanted {
        dump: files.vcd.is_some(),
        diagram: match files.svg {
            Some(_) => Some(title),
            None => None,
        },
    }
}

/// Neither a difference nor texts of a trace.
fn without_trace() -> Traced
    ensures { HasNoTrace result }
{
    Traced {
        difference: None,
        texts: TraceTexts::none(),
    }
}

/// Writes what the words ask for of the text of the file, and of that of a second drawing, if there is one; the first
/// difference from what they expect, if there is one, and the texts for the files of a trace. `terminal` is whether standard
/// output is one.
pub fn obey<W: Write>(
    alloc: Global,
    terminal: bool,
    request: &TextRequest<'_>,
    text: &str,
    second: Option<&str>,
    writer: &mut W,
) -> Result<Traced, TextCommandFault>
    ensures ok { IfOk result
        (WritesAnswer terminal request.now text.now (option_map (λ t. t.now) second.entry) (W.contents writer.old) (W.contents writer.new)) }
    ensures fault { IfErr result
        (ExplainsAnswer terminal request.now text.now (option_map (λ t. t.now) second.entry) (W.contents writer.old) (W.contents writer.new)) }
{
    match request {
        TextRequest::Eval {
            drawing,
            dt,
            view,
            color,
            files,
            words,
            program,
            restarts,
            ..
        } => {
            let form = form_of(*view, *color, terminal);
            let wanted = wanted_for(drawing, *files);
            let source = LadderSource {
                text,
                program: *program,
                second,
            };
            eval_traced(alloc, source, words, restarts, *dt, form, wanted, writer)
        }
        TextRequest::Check { .. } => {
            check(alloc, text, writer)?;
            Ok(without_trace())
        }
        TextRequest::Plan { until, form, .. } => {
            plan_text(alloc, text, *until, *form, writer)?;
            Ok(without_trace())
        }
    }
}

/// Tells what isn't as the words expect, if there is such a thing; the status.
fn tell_difference<R: Eprint>(rt: &R, file: &str, difference: Option<Difference>) -> io::Result<u8>
    ensures { IfOk result (λ status. status ≡ status_of_difference difference) }
{
    match difference {
        None => Ok(DONE),
        Some(difference) => print_difference(rt, file, &difference),
    }
}

/// The file of a second drawing and its text, if there is one.
pub(crate) fn file_of_text<'a>(
    file: Option<&'a str>,
    text: Option<&'a str>,
) -> Option<FileText<'a>> {
    match (file, text) {
        (Some(file), Some(text)) => Some(FileText { file, text }),
        _ => None,
    }
}

/// Tells how a command of one text ended; the status, and the texts for the files of a trace. `is_closed` is whether the
/// output's reader has ended.
fn tell_text<R: Eprint + AllocGlobal>(
    rt: &R,
    request: &TextRequest<'_>,
    text: &str,
    second: Option<FileText<'_>>,
    is_closed: bool,
    obeyed: Result<Traced, TextCommandFault>,
) -> io::Result<Answered>
    ensures { IfOk result (EndsAfter request.now text.now obeyed) }
{
    match obeyed {
        Ok(Traced { difference, texts }) => {
            let status = tell_difference(rt, request.file(), difference)?;
            let status = warn(rt, request, text, status)?;
            Ok(Answered { status, texts })
        }
        Err(fault) => {
            let source = Source {
                file: request.file(),
                text,
                program: request.program(),
                second,
                form: WordForm::Series,
            };
            let status = print_fault_of_text(rt, source, request.words(), is_closed, fault)?;
            Ok(Answered::with(status))
        }
    }
}

/// Reads a file, and writes what is asked for of its text; the status, and the texts for the files of a trace. `terminal` is
/// whether standard output is one, and `told` whether it is told on standard error how many lines went out.
pub fn answer_text<R: Files + Clock + Print + Eprint + AllocGlobal>(
    rt: &R,
    terminal: bool,
    told: bool,
    request: &TextRequest<'_>,
) -> io::Result<Answered>
    ensures { IfOk result (EndsText terminal request.now) }
{
    let text = match file_text(rt, request.file())? {
        Ok(text) => text,
        Err(status) => return Ok(Answered::with(status)),
    };
    let other = match second_text(rt, request.second())? {
        Ok(other) => other,
        Err(status) => return Ok(Answered::with(status)),
    };
    let second = text_of(&other);
    let mut writer = Piped::new(ToldLines::new(io::writer(rt), OnTerminal::new(rt, told)));
    let obeyed = obey(
        rt.alloc(),
        terminal,
        request,
        text.as_str(),
        second,
        &mut writer,
    );
    writer.to.end();
    tell_text(
        rt,
        request,
        text.as_str(),
        file_of_text(request.second(), second),
        writer.is_closed,
        obeyed,
    )
}
