ghost use Rattle.std.specs.Prelude.{◌≡◌, ◌⊎◌, IfOk};
ghost use Rattle.clap.specs.Values.{kind_of};
ghost use Rattle.console.specs.Endings.{status_of_words};

use crate::command_fault::CommandFault;
use crate::faults::print_failure;
use crate::help::FIRST_STEPS;
use crate::status::{DONE, FAILED, WORD_REFUSED};
use clap::error::ErrorKind;
use std::rt::Env;
use std::{env, io};

/// The words of the command line behind the program's name.
pub fn given_words<R: Env + AllocGlobal>(rt: &R) -> io::Result<Vec<String>> {
    Ok(env::args(rt)?.collect(rt.alloc())?)
}

/// Tells why the words can't be read; the status.
pub fn print_given_fault<R: Eprint>(rt: &R, error: &io::Error) -> io::Result<u8>
    ensures { IfOk result (λ status. (status ≡ 2) ⊎ (status ≡ 3)) }
{
    eprintln!(rt; "plc: the words can't be read: {error}")?;
    Ok(match error.kind() {
        io::ErrorKind::OutOfMemory => FAILED,
        _ => WORD_REFUSED,
    })
}

/// The status after words that ask for nothing.
fn status_of_words(kind: ErrorKind) -> u8
    ensures { result ≡ status_of_words kind }
{
    match kind {
        ErrorKind::DisplayHelp | ErrorKind::DisplayVersion => DONE,
        ErrorKind::OutOfMemory => FAILED,
        _ => WORD_REFUSED,
    }
}

/// Tells what is wrong with the words, or what is asked of `--help`; the status. It is 3 where that can't be told.
pub fn print_usage<R: Print + Eprint>(rt: &R, error: &clap::Error) -> io::Result<u8>
    ensures { IfOk result (λ status. (status ≡ status_of_words (kind_of error.now)) ⊎ (status ≡ 3)) }
{
    let kind = error.kind();
    if kind == ErrorKind::OutOfMemory {
        return print_failure(rt, CommandFault::Memory);
    }
    if error.print(rt).is_err() {
        return print_failure(rt, CommandFault::Write);
    }
    if kind == ErrorKind::MissingSubcommand {
        eprintln!(rt; "\n{FIRST_STEPS}")?;
    }
    Ok(status_of_words(kind))
}
