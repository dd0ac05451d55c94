//! How the words of the command line are obeyed.

ghost use Rattle.std.specs.Prelude.{◌≡◌, ◌&&◌, map, not, string_bytes, IfOk};
ghost use Rattle.plc_main.specs.Files.{EndsApart, EndsRequest, EndsWords};
ghost use Rattle.console.specs.declared.request.Request.TheVariants as asked;

use crate::clashes::{FileUse, first_clash, first_nameless};
use crate::node_command::answer_node;
use crate::running_alone::Inputs;
use crate::trace_files::{TextFiles, write_certificates, write_files};
use crate::used_files::files_of;
use crate::{answer_audit, answer_run};
use console::{
    Request, RunRequest, SimRequest, TextRequest, VerifyRequest, WordRefusal, answer_kind,
    answer_kinds, answer_page, answer_schedule, answer_text, answer_verify, print_usage,
    print_word_refusal, read_words,
};
use node_loop::ReaderEnds;
use std::io;
use std::rt::{Clock, Files};
use std::sync::Wait;
use std::thread::Threads;

/// Which of the standard streams are terminals, and whether standard output may have colors unless the words say it.
#[derive(Clone, Copy)]
pub struct Terminals {
    output: bool,
    errors: bool,
    colors: bool,
}

impl Terminals {
    /// `uncolored` is whether no colors are wanted.
    pub fn of(output: bool, errors: bool, uncolored: bool) -> Terminals
        ensures { result ≡ record { output = output; errors = errors; colors = output && not uncolored } }
    {
        Terminals {
            output,
            errors,
            colors: output && !uncolored,
        }
    }

    /// Whether it is told on standard error how far the lines on standard output are.
    fn tells_lines(self) -> bool
        ensures { result ≡ (self.errors && not self.output) }
    {
        self.errors && !self.output
    }
}

/// Obeys a command of one text, and writes the files of its trace; the status.
fn obey_text<R: Files + Clock + Print + Eprint + AllocGlobal, F: TextFiles>(
    rt: &R,
    terminals: Terminals,
    request: &TextRequest<'_>,
    to: &mut F,
) -> io::Result<u8>
    ensures { IfOk result
        (EndsRequest terminals.colors (asked.Text request.now) (F.came to.old) (F.came to.new)) }
{
    let answered = answer_text(rt, terminals.colors, terminals.tells_lines(), request)?;
    write_files(to, request.files(), answered)
}

/// Does a schedule, and writes the files of its trace; the status.
fn obey_sim<R: Files + Clock + Input + Print + Eprint + AllocGlobal, F: TextFiles>(
    rt: &R,
    terminals: Terminals,
    request: &SimRequest<'_>,
    to: &mut F,
) -> io::Result<u8>
    ensures { IfOk result
        (EndsRequest terminals.colors (asked.Sim request.now) (F.came to.old) (F.came to.new)) }
{
    let answered = answer_schedule(rt, terminals.tells_lines(), request)?;
    write_files(to, request.files, answered)
}

/// Runs a plant, and writes the files of its trace; the status.
fn obey_threads<
    R: Files + Clock + Print + Eprint + AllocGlobal + Threads + Wait + Sync,
    F: TextFiles,
>(
    rt: &R,
    host: &HostRuntime,
    terminals: Terminals,
    request: &RunRequest<'_>,
    to: &mut F,
) -> io::Result<u8>
    ensures { IfOk result
        (EndsRequest terminals.colors (asked.Run request.now) (F.came to.old) (F.came to.new)) }
{
    let answered = answer_run(rt, host, terminals.errors, request)?;
    write_files(to, request.files, answered)
}

/// Answers claims, and writes the file of their certificates; the status.
fn obey_verify<R: Files + Clock + Print + Eprint + AllocGlobal, F: TextFiles>(
    rt: &R,
    terminals: Terminals,
    request: &VerifyRequest<'_>,
    to: &mut F,
) -> io::Result<u8>
    ensures { IfOk result
        (EndsRequest terminals.colors (asked.Verify request.now) (F.came to.old) (F.came to.new)) }
{
    let verified = answer_verify(rt, terminals.errors, request)?;
    write_certificates(to, request.certificate, verified)
}

/// Obeys a request; the status.
fn obey_request<
    R: Files + Clock + Input + Print + Eprint + AllocGlobal + Threads + Wait + Sync,
    F: TextFiles,
    S: FnOnce(Inputs, ReaderEnds) -> bool,
>(
    rt: &R,
    host: &HostRuntime,
    terminals: Terminals,
    request: &Request<'_>,
    to: &mut F,
    readers: S,
) -> io::Result<u8>
    requires { (inputs : _) → (ends : _) → S.pre readers inputs ends }
    ensures { IfOk result (EndsRequest terminals.colors request.now (F.came to.old) (F.came to.new)) }
{
    match request {
        Request::Text(request) => obey_text(rt, terminals, request, to),
        Request::Verify(request) => obey_verify(rt, terminals, request, to),
        Request::Sim(request) => obey_sim(rt, terminals, request, to),
        Request::Run(request) => obey_threads(rt, host, terminals, request, to),
        Request::Node(request) => answer_node(rt, host, request, readers),
        Request::Audit(request) => answer_audit(rt, request),
        Request::Page(file) => answer_page(rt, file),
        Request::Explain(Some(kind)) => answer_kind(rt, kind),
        Request::Explain(None) => answer_kinds(rt),
    }
}

/// Tells that a file that is written is read, or is another one that is written; the status.
fn print_clash<R: Eprint>(rt: &R, first: &FileUse<'_>, second: &FileUse<'_>) -> io::Result<u8>
    ensures { IfOk result (λ status. status ≡ 2) }
{
    let (path, option) = (second.path, second.option.unwrap_or(""));
    let refusal = match first.option {
        None => WordRefusal::WrittenOver { path, option },
        Some(first) => WordRefusal::WrittenTwice {
            path,
            first,
            option,
        },
    };
    print_word_refusal(rt, refusal)
}

/// Tells that a file that is written, or the folder of state, is named by `-`; the status.
fn print_nameless<R: Eprint>(rt: &R, file: &FileUse<'_>) -> io::Result<u8>
    ensures { IfOk result (λ status. status ≡ 2) }
{
    print_word_refusal(rt, WordRefusal::Nameless(file.option.unwrap_or("")))
}

/// Obeys a request, unless a file that it writes is named by `-`, or is another one of its files; the status.
fn obey_apart<
    R: Files + Clock + Input + Print + Eprint + AllocGlobal + Threads + Wait + Sync,
    F: TextFiles,
    S: FnOnce(Inputs, ReaderEnds) -> bool,
>(
    rt: &R,
    host: &HostRuntime,
    terminals: Terminals,
    request: &Request<'_>,
    to: &mut F,
    readers: S,
) -> io::Result<u8>
    requires { (inputs : _) → (ends : _) → S.pre readers inputs ends }
    ensures { IfOk result (EndsApart terminals.colors request.now (F.came to.old) (F.came to.new)) }
{
    let files = files_of(rt, rt.alloc(), request)?;
    if let Some(file) = first_nameless(&files) {
        return print_nameless(rt, &file);
    }
    if let Some((first, second)) = first_clash(&files) {
        return print_clash(rt, &first, &second);
    }
    obey_request(rt, host, terminals, request, to, readers)
}

/// Reads the words of the command line, and obeys them; the status.
pub fn answer_words<
    R: Files + Clock + Input + Print + Eprint + AllocGlobal + Threads + Wait + Sync,
    F: TextFiles,
    S: FnOnce(Inputs, ReaderEnds) -> bool,
>(
    rt: &R,
    host: &HostRuntime,
    terminals: Terminals,
    words: &[String],
    to: &mut F,
    readers: S,
) -> io::Result<u8>
    requires { (inputs : _) → (ends : _) → S.pre readers inputs ends }
    ensures { IfOk result (EndsWords terminals.colors (map (λ word. string_bytes word) words.now) (F.came to.old) (F.came to.new)) }
{
    match read_words(rt.alloc(), words) {
        Ok(request) => obey_apart(rt, host, terminals, &request, to, readers),
        Err(error) => print_usage(rt, &error),
    }
}
