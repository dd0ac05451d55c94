ghost use Rattle.std.specs.Prelude.{◌≡◌, IfOk, IfErr, List, ℕ, MatchResult, string_bytes};
ghost use Rattle.std.specs.Option.{is_some, option_map};
ghost use Rattle.text_commands.specs.CheckText.{GivesNoPlant, IsPlantOf};
ghost use Rattle.console.specs.Endings.{IsNoPlantStatus, IsOtherUnread, status_of_unread};

use crate::faults::{print_fault, print_word_refusal};
use crate::refusals::WordRefusal;
use crate::shown::Shown;
use crate::status::FAILED;
use plant::Plant;
use std::alloc::Global;
use std::rt::Files;
use std::sync::Arc;
use std::{fs, io};
use text_commands::{TextCommandFault, read_plant};

/// What stands for standard input in the place of a file's name.
pub(crate) const STANDARD_INPUT: &str = "-";

/// Tells why a file can't be read; the status.
fn print_unread<R: Eprint>(rt: &R, file: &str, error: &io::Error) -> io::Result<u8>
    ensures { IfOk result (λ status. status ≡ 3) }
{
    let file = Shown(file);
    eprintln!(rt; "plc: {file}: {error}")?;
    Ok(FAILED)
}

/// What was read of a file, or the status after its fault was told.
fn read_or_told<R: Eprint, T>(rt: &R, file: &str, read: io::Result<T>) -> io::Result<Result<T, u8>>
    ensures { IfOk result (λ read. IfErr read (λ status. status ≡ 3)) }
{
    match read {
        Ok(read) => Ok(Ok(read)),
        Err(error) => Ok(Err(print_unread(rt, file, &error)?)),
    }
}

/// The text of a file, or the status after its fault was told. A whole text isn't read from standard input.
pub(crate) fn file_text<R: Files + Eprint + AllocGlobal>(
    rt: &R,
    file: &str,
) -> io::Result<Result<String, u8>>
    ensures { IfOk result (λ read. IfErr read (λ status. status ≡ status_of_unread file.now)) }
{
    if file == STANDARD_INPUT {
        return Ok(Err(print_word_refusal(rt, WordRefusal::NoFile)?));
    }
    read_or_told(rt, file, fs::read_to_string(rt, file))
}

/// The text of the file of a second drawing, if there is such a file, or the status after its fault was told.
pub(crate) fn second_text<R: Files + Eprint + AllocGlobal>(
    rt: &R,
    second: Option<&str>,
) -> io::Result<Result<Option<String>, u8>>
    ensures { IfOk result
        (λ read. MatchResult read (λ text. is_some text ≡ is_some second.entry) (IsOtherUnread second.entry)) }
{
    let Some(file) = second else {
        return Ok(Ok(None));
    };
    match file_text(rt, file)? {
        Ok(text) => Ok(Ok(Some(text))),
        Err(status) => Ok(Err(status)),
    }
}

/// The text, if there is one.
pub(crate) fn text_of(text: &Option<String>) -> Option<&str>
    ensures { option_map (λ t. t.now) result ≡ option_map string_bytes text.now }
{
    match text {
        Some(text) => Some(text.as_str()),
        None => None,
    }
}

/// The text of a file, or of standard input where that is `-`; or the status after its fault was told.
pub(crate) fn any_text<R: Files + Input + Eprint + AllocGlobal>(
    rt: &R,
    file: &str,
) -> io::Result<Result<String, u8>>
    ensures { IfOk result (λ read. IfErr read (λ status. status ≡ 3)) }
{
    let read = if file == STANDARD_INPUT {
        io::read_to_string(rt.alloc(), rt.reader())
    } else {
        fs::read_to_string(rt, file)
    };
    read_or_told(rt, file, read)
}

/// The bytes of a file, or the status after its fault was told. Those of a whole file aren't read from standard input.
pub fn file_bytes<R: Files + Eprint + AllocGlobal>(
    rt: &R,
    file: &str,
) -> io::Result<Result<Vec<u8>, u8>>
    ensures { IfOk result (λ read. IfErr read (λ status. status ≡ status_of_unread file.now)) }
{
    if file == STANDARD_INPUT {
        return Ok(Err(print_word_refusal(rt, WordRefusal::NoFile)?));
    }
    read_or_told(rt, file, fs::read(rt, file))
}

/// Reads a plant that is to be shared.
fn shared_plant(alloc: Global, text: &str) -> Result<Arc<Plant>, TextCommandFault>
    ensures ok { IfOk result (λ plant. IsPlantOf text.now plant.value) }
    ensures err { IfErr result (GivesNoPlant text.now) }
{
    let plant = read_plant(alloc, text)?;
    Ok(Arc::new(alloc, plant)?)
}

/// The plant of a file, or the status after its fault was told.
pub fn file_plant<R: Files + Eprint + AllocGlobal>(
    rt: &R,
    file: &str,
) -> io::Result<Result<Arc<Plant>, u8>>
    ensures { IfOk result (λ read. MatchResult read
        (λ plant. (text : List ℕ) × IsPlantOf text plant.value)
        (IsNoPlantStatus file.now)) }
{
    let text = match file_text(rt, file)? {
        Ok(text) => text,
        Err(status) => return Ok(Err(status)),
    };
    match shared_plant(rt.alloc(), text.as_str()) {
        Ok(plant) => Ok(Ok(plant)),
        Err(fault) => Ok(Err(print_fault(rt, file, text.as_str(), &[], fault.into())?)),
    }
}
