ghost use Rattle.std.specs.Prelude.{◌≡◌, IfOk};
ghost use Rattle.console.specs.Giving.{command_fault};
ghost use Rattle.console.specs.Statuses.{status_of_fault, status_of_inputs, status_of_lines, status_of_schedule};

use crate::command_fault::CommandFault;
use crate::field_words::{doubled_word, misspelled_word};
use crate::refusals::{DifferenceLine, NoEvent, Refusal, RefusedWord, WordRefusal};
use crate::remarks::{print_mark_of, print_remark};
use crate::shown::Shown;
use crate::status::{DIFFERS, FAILED, TEXT_REFUSED, WORD_REFUSED};
use evaluation::InputFault;
use guidance::{Meant, help_with, help_with_a_program, help_with_a_schedule, help_with_a_word};
use mistakes::more_with;
use std::alloc::AllocError;
use std::fmt::Display;
use std::io;
use tested_schedules::LiveFault;
use text_commands::{Difference, TextCommandFault, TextFault, WordFault, WordFaultKind};
use world::SimFault;

/// A file that was read, and its text.
#[derive(Clone, Copy)]
pub(crate) struct FileText<'a> {
    pub file: &'a str,
    pub text: &'a str,
}

/// What a word of a command says of a variable.
#[derive(Clone, Copy, Debug, PartialEq, Eq)]
pub(crate) enum WordForm {
    /// Its values before the scans, or what they are to be after them: `plc eval`.
    Series,
    /// The one value at which it is held: `plc verify`.
    Held,
}

/// A file that was read, its text, the name of the program type in it that is asked about, or that of a second drawing; and
/// what the words say that stand behind it.
#[derive(Clone, Copy)]
pub(crate) struct Source<'a> {
    pub file: &'a str,
    pub text: &'a str,
    pub program: Option<&'a str>,
    pub second: Option<FileText<'a>>,
    pub form: WordForm,
}

/// Tells what helps to mend a text. The fault was told before: what can't be told here is left out.
fn print_help<R: Eprint>(rt: &R, help: Result<String, AllocError>) {
    if let Ok(help) = help {
        let _told = rt.eprint(help.as_str());
    }
}

/// Tells why a text is refused; the status.
fn print_text_fault<R: Eprint + AllocGlobal>(
    rt: &R,
    file: &str,
    text: &str,
    fault: TextFault,
) -> io::Result<u8>
    ensures { IfOk result (λ status. status ≡ 1) }
{
    let refusal = Refusal { file, fault };
    eprintln!(rt; "{refusal}")?;
    print_remark(rt, file, text, fault);
    print_help(rt, help_with(rt.alloc(), text, fault));
    print_help(rt, more_with(rt.alloc(), text, fault));
    Ok(TEXT_REFUSED)
}

/// Tells why a text of a source is refused; the status.
fn print_source_fault<R: Eprint + AllocGlobal>(
    rt: &R,
    source: Source<'_>,
    fault: TextFault,
) -> io::Result<u8>
    ensures { IfOk result (λ status. status ≡ 1) }
{
    match (fault, source.second) {
        (TextFault::Second(fault), Some(second)) => {
            print_text_fault(rt, second.file, second.text, TextFault::alone(fault))
        }
        _ => print_text_fault(rt, source.file, source.text, fault),
    }
}

/// Tells why words are refused; the status.
pub fn print_word_refusal<R: Eprint>(rt: &R, refusal: WordRefusal<'_>) -> io::Result<u8>
    ensures { IfOk result (λ status. status ≡ 2) }
{
    eprintln!(rt; "{refusal}")?;
    Ok(WORD_REFUSED)
}

/// Tells that a plant has no program type of the name that is asked about, and the nearest ones that it has; the status.
fn print_no_program<R: Eprint + AllocGlobal>(rt: &R, source: Source<'_>) -> io::Result<u8>
    ensures { IfOk result (λ status. status ≡ 2) }
{
    let name = source.program.unwrap_or("");
    let status = print_word_refusal(rt, WordRefusal::NoProgram(name))?;
    print_help(rt, help_with_a_program(rt.alloc(), source.text, name));
    Ok(status)
}

/// Tells the fault of a word by its number; the status.
pub(crate) fn print_fault_of_word<R: Eprint, F: Display + Drop>(
    rt: &R,
    words: &[&str],
    number: usize,
    fault: F,
) -> io::Result<u8>
    ensures { IfOk result (λ status. status ≡ 2) }
{
    let word = words.get(number).copied().unwrap_or("");
    let refused = RefusedWord { word, fault };
    eprintln!(rt; "{refused}")?;
    Ok(WORD_REFUSED)
}

/// Tells that no variable has the name in a word, by its number, and the nearest ones that can have been meant; the status.
pub(crate) fn print_unknown_name<R: Eprint + AllocGlobal>(
    rt: &R,
    source: Source<'_>,
    words: &[&str],
    number: usize,
    meant: Meant,
) -> io::Result<u8>
    ensures { IfOk result (λ status. status ≡ 2) }
{
    let word = words.get(number).copied().unwrap_or("");
    let shown = Shown(word);
    let owner = match source.program {
        None => "drawing",
        Some(_) => "program type",
    };
    let variable = match meant {
        Meant::Variables => "variable",
        Meant::Flags => "BOOL variable",
    };
    eprintln!(rt; "plc: {shown}: the {owner} has no {variable} of this name")?;
    let help = help_with_a_word(rt.alloc(), source.text, source.program, meant, word);
    print_help(rt, help);
    Ok(WORD_REFUSED)
}

/// The form of a word of a command.
fn form_of_words(form: WordForm) -> &'static str {
    match form {
        WordForm::Series => "a word is NAME=VALUES, or NAME==VALUES for what a variable is to be",
        WordForm::Held => "a word is NAME=VALUE, for an input that is held at it",
    }
}

/// Tells that a word isn't of the form that its command takes; the status.
fn print_form<R: Eprint>(rt: &R, word: &str, form: WordForm) -> io::Result<u8>
    ensures { IfOk result (λ status. status ≡ 2) }
{
    let (shown, form) = (Shown(word), form_of_words(form));
    eprintln!(rt; "plc: {shown}: {form}")?;
    Ok(WORD_REFUSED)
}

/// How the values of variables of a kind are written in a word, and an example.
#[derive(Clone, Copy)]
struct ValueForm {
    text: &'static str,
    example: &'static str,
}

impl ValueForm {
    /// What is wrong with the values in a word of this form; none where it isn't one of these kinds.
    fn of(fault: WordFaultKind, form: WordForm) -> Option<ValueForm> {
        let (text, example) = match (fault, form) {
            (WordFaultKind::BadDigits, WordForm::Series) => (
                "a BOOL: 1 to 1,000 digits 0 or 1, a value each",
                "0110",
            ),
            (WordFaultKind::BadDigits, WordForm::Held) => ("a BOOL: 0 or 1", "1"),
            (WordFaultKind::BadNumbers, WordForm::Series) => (
                "an INT: numbers from -32768 to 32767, parted by commas",
                "3,4,4",
            ),
            (WordFaultKind::BadNumbers, WordForm::Held) => (
                "an INT: a number from -32768 to 32767",
                "3",
            ),
            (WordFaultKind::BadDurations, WordForm::Series) => (
                "a TIME: durations up to T#2147483647ms, parted by commas",
                "T#5s,T#7s",
            ),
            (WordFaultKind::BadDurations, WordForm::Held) => (
                "a TIME: a duration up to T#2147483647ms",
                "T#5s",
            ),
            _ => return None,
        };
        Some(ValueForm { text, example })
    }
}

/// Tells how the values of the variable in a word are written, or, where the word expects what its command holds, the form of
/// its words; the status.
fn print_bad_values<R: Eprint>(
    rt: &R,
    word: &str,
    form: WordForm,
    values: ValueForm,
) -> io::Result<u8>
    ensures { IfOk result (λ status. status ≡ 2) }
{
    let is_expectation = word.contains("==");
    if is_expectation && form == WordForm::Held {
        return print_form(rt, word, form);
    }
    let shown = Shown(word);
    let name = Shown(word.split('=').next().unwrap_or(word));
    let sign = if is_expectation { "==" } else { "=" };
    let ValueForm { text, example } = values;
    eprintln!(rt; "plc: {shown}: {name} is {text}, as {name}{sign}{example}")?;
    Ok(WORD_REFUSED)
}

/// Tells why a word NAME=VALUES or NAME==VALUES is refused, or the name of a program type: how values of its kind are written
/// for the command. The status.
fn print_refused_word<R: Eprint + AllocGlobal>(
    rt: &R,
    source: Source<'_>,
    words: &[&str],
    fault: WordFault,
) -> io::Result<u8>
    ensures { IfOk result (λ status. status ≡ 2) }
{
    let word = words.get(fault.number).copied().unwrap_or("");
    if let Some(values) = ValueForm::of(fault.kind, source.form) {
        return print_bad_values(rt, word, source.form, values);
    }
    match fault.kind {
        WordFaultKind::NoEquals => print_form(rt, word, source.form),
        WordFaultKind::NoVariable => {
            print_unknown_name(rt, source, words, fault.number, Meant::Variables)
        }
        WordFaultKind::NoProgram => print_no_program(rt, source),
        _ => print_fault_of_word(rt, words, fault.number, fault),
    }
}

/// Tells that the output failed, or the threads, or memory; the status.
pub fn print_failure<R: Eprint>(rt: &R, fault: CommandFault) -> io::Result<u8>
    ensures { IfOk result (λ status. status ≡ 3) }
{
    eprintln!(rt; "plc: {fault}")?;
    Ok(FAILED)
}

/// Tells that the output can't be written, unless its reader has ended, who wants no more; the status.
pub(crate) fn print_unwritten<R: Eprint>(rt: &R, is_closed: bool) -> io::Result<u8>
    ensures { IfOk result (λ status. status ≡ 3) }
{
    if is_closed {
        return Ok(FAILED);
    }
    print_failure(rt, CommandFault::Write)
}

/// Tells a fault of a command about what was read; the status.
fn print_fault_about<R: Eprint + AllocGlobal>(
    rt: &R,
    source: Source<'_>,
    words: &[&str],
    fault: CommandFault,
) -> io::Result<u8>
    ensures { IfOk result (λ status. status ≡ status_of_fault fault) }
{
    match fault {
        CommandFault::Text(fault) => print_source_fault(rt, source, fault),
        CommandFault::Word(fault) => print_refused_word(rt, source, words, fault),
        CommandFault::Write | CommandFault::Run(_) | CommandFault::Memory => {
            print_failure(rt, fault)
        }
    }
}

/// Tells a fault of a command; the text is that of the file. The status.
pub fn print_fault<'a, R: Eprint + AllocGlobal>(
    rt: &R,
    file: &'a str,
    text: &'a str,
    words: &[&str],
    fault: CommandFault,
) -> io::Result<u8>
    ensures { IfOk result (λ status. status ≡ status_of_fault fault) }
{
    let source = Source {
        file,
        text,
        program: None,
        second: None,
        form: WordForm::Series,
    };
    print_fault_about(rt, source, words, fault)
}

/// Tells a fault of a command of one text; the status. `is_closed` is whether the output's reader has ended.
pub(crate) fn print_fault_of_text<R: Eprint + AllocGlobal>(
    rt: &R,
    source: Source<'_>,
    words: &[&str],
    is_closed: bool,
    fault: TextCommandFault,
) -> io::Result<u8>
    ensures { IfOk result (λ status. status ≡ status_of_fault (command_fault fault)) }
{
    match fault {
        TextCommandFault::Write => print_unwritten(rt, is_closed),
        _ => print_fault_about(rt, source, words, fault.into()),
    }
}

/// Tells what isn't as the words of a drawing expect; the status.
pub(crate) fn print_difference<R: Eprint>(
    rt: &R,
    file: &str,
    difference: &Difference,
) -> io::Result<u8>
    ensures { IfOk result (λ status. status ≡ 4) }
{
    let line = DifferenceLine { file, difference };
    eprintln!(rt; "{line}")?;
    Ok(DIFFERS)
}

/// Tells why words of field inputs are refused, and which; the status.
pub(crate) fn print_input_fault<R: Eprint + AllocGlobal>(
    rt: &R,
    words: &[&str],
    fault: InputFault,
) -> io::Result<u8>
    ensures { IfOk result (λ status. status ≡ status_of_inputs fault) }
{
    match fault {
        InputFault::Syntax => {
            let word = misspelled_word(rt.alloc(), words);
            print_word_refusal(rt, WordRefusal::NoFieldInput(word))
        }
        InputFault::Twice => {
            let word = doubled_word(rt.alloc(), words);
            print_word_refusal(rt, WordRefusal::AddressTwice(word))
        }
        InputFault::Memory => print_failure(rt, CommandFault::Memory),
    }
}

/// Tells why a schedule isn't done to its end; the status. `is_closed` is whether the output's reader has ended.
pub(crate) fn print_sim_fault<R: Eprint + AllocGlobal>(
    rt: &R,
    file: &str,
    schedule: &str,
    is_closed: bool,
    fault: SimFault,
) -> io::Result<u8>
    ensures { IfOk result (λ status. status ≡ status_of_schedule fault) }
{
    match fault {
        SimFault::Syntax { line } => {
            let refusal = NoEvent { file, line };
            eprintln!(rt; "{refusal}")?;
            print_mark_of(rt, file, schedule);
            print_help(rt, help_with_a_schedule(rt.alloc(), schedule, line));
            Ok(TEXT_REFUSED)
        }
        SimFault::Write => print_unwritten(rt, is_closed),
        SimFault::Memory => print_failure(rt, CommandFault::Memory),
    }
}

/// Tells why a schedule that is read line by line isn't done to its end; the line is the one that was read last. The
/// status.
pub(crate) fn print_live_fault<R: Eprint + AllocGlobal>(
    rt: &R,
    file: &str,
    line: &[u8],
    fault: LiveFault,
) -> io::Result<u8>
    ensures { IfOk result (λ status. status ≡ status_of_lines fault) }
{
    match fault {
        LiveFault::Syntax { line: number } | LiveFault::TooLong { line: number } => {
            let refusal = NoEvent { file, line: number };
            eprintln!(rt; "{refusal}")?;
            let text = str::from_utf8(line).unwrap_or("");
            print_help(rt, help_with_a_schedule(rt.alloc(), text, 1));
            Ok(TEXT_REFUSED)
        }
        LiveFault::Read => {
            eprintln!(rt; "plc: {file}: standard input can't be read")?;
            Ok(FAILED)
        }
        LiveFault::Write => print_failure(rt, CommandFault::Write),
        LiveFault::Memory => print_failure(rt, CommandFault::Memory),
    }
}
