//! Warnings: what is lawful, and most likely not meant.

ghost use Rattle.std.specs.Prelude.{◌≡◌, IfOk, MatchOption};
ghost use Rattle.console.specs.Warned.{AreDrawingWarnings, ArePlantWarnings, IsNoDrawing, IsNoPlantEither, EndsWarned, IsDrawingQuiet, IsLadderQuiet, IsPlantQuiet, IsQuiet, is_plant_quiet, strict_status, time_of_all};
ghost use Rattle.console.specs.Steps.WarnedEnds.{IsStatusBehind};
ghost use Rattle.console.specs.CommandLine.{strictness_of};

use crate::command_fault::CommandFault;
use crate::faults::print_failure;
use crate::request::{Strictness, TextRequest};
use crate::shown::Shown;
use crate::status::TEXT_REFUSED;
use guidance::{column_among, ended_lines, whole_among};
use std::alloc::{AllocError, Global};
use std::io;
use text_commands::without_comments;
use warnings::{
    FarAddress, PlantWarnings, ScanTime, UnboundInput, Warning, warnings_of_a_plant,
    warnings_of_a_text,
};

/// Tells a warning: its place and kind, the line of the text with a mark, and what to write instead.
fn print_warning<R: Eprint + AllocGlobal>(
    rt: &R,
    file: &str,
    lines: &[&str],
    warning: Warning,
) -> io::Result<()> {
    let file = Shown(file);
    eprintln!(rt; "{file}:{warning}")?;
    if let Ok(shown) = column_among(rt.alloc(), lines, warning.line, warning.column) {
        rt.eprint(shown.as_str())?;
    }
    let sentence = warning.kind.sentence();
    eprintln!(rt; "{sentence}")?;
    Ok(())
}

fn print_warnings<R: Eprint + AllocGlobal>(
    rt: &R,
    file: &str,
    lines: &[&str],
    warnings: &[Warning],
) -> io::Result<()> {
    for warning in warnings {
        print_warning(rt, file, lines, *warning)?;
    }
    Ok(())
}

/// Tells that an input isn't bound: its line, and what to write instead.
fn print_unbound<R: Eprint + AllocGlobal>(
    rt: &R,
    file: &str,
    lines: &[&str],
    unbound: &UnboundInput,
) -> io::Result<()> {
    let file = Shown(file);
    eprintln!(rt; "{file}:{unbound}")?;
    if let Ok(shown) = whole_among(rt.alloc(), lines, unbound.line) {
        rt.eprint(shown.as_str())?;
    }
    if let Ok(sentence) = unbound.sentence(rt.alloc()) {
        eprintln!(rt; "{sentence}")?;
    }
    Ok(())
}

fn print_unbound_inputs<R: Eprint + AllocGlobal>(
    rt: &R,
    file: &str,
    lines: &[&str],
    inputs: &[UnboundInput],
) -> io::Result<()> {
    for input in inputs {
        print_unbound(rt, file, lines, input)?;
    }
    Ok(())
}

/// Tells of an address far from all others: its line, and what to do.
fn print_far<R: Eprint + AllocGlobal>(
    rt: &R,
    file: &str,
    lines: &[&str],
    far: &FarAddress,
) -> io::Result<()> {
    let file = Shown(file);
    eprintln!(rt; "{file}:{far}")?;
    if let Ok(shown) = whole_among(rt.alloc(), lines, far.line) {
        rt.eprint(shown.as_str())?;
    }
    if let Ok(sentence) = far.sentence(rt.alloc()) {
        eprintln!(rt; "{sentence}")?;
    }
    Ok(())
}

fn print_far_addresses<R: Eprint + AllocGlobal>(
    rt: &R,
    file: &str,
    lines: &[&str],
    addresses: &[FarAddress],
) -> io::Result<()> {
    for far in addresses {
        print_far(rt, file, lines, far)?;
    }
    Ok(())
}

/// Tells the warnings of a drawing's text. An error is want of memory.
fn print_drawing_warnings<R: Eprint + AllocGlobal>(
    rt: &R,
    file: &str,
    text: &str,
    warnings: &[Warning],
) -> io::Result<Result<(), AllocError>> {
    match ended_lines(rt.alloc(), text) {
        Ok(lines) => {
            print_warnings(rt, file, &lines, warnings)?;
            Ok(Ok(()))
        }
        Err(fault) => Ok(Err(fault)),
    }
}

/// Tells the warnings of a plant's text. An error is want of memory.
fn print_plant_warnings<R: Eprint + AllocGlobal>(
    rt: &R,
    file: &str,
    text: &str,
    warnings: &PlantWarnings,
) -> io::Result<Result<(), AllocError>> {
    match ended_lines(rt.alloc(), text) {
        Ok(lines) => {
            print_warnings(rt, file, &lines, &warnings.bodies)?;
            print_unbound_inputs(rt, file, &lines, &warnings.unbound)?;
            print_far_addresses(rt, file, &lines, &warnings.far)?;
            Ok(Ok(()))
        }
        Err(fault) => Ok(Err(fault)),
    }
}

/// The warnings of a drawing's text, if need be with its comments emptied, with `dt` milliseconds from each scan to the next;
/// with 0 no step is judged. `None`: it is refused.
fn drawing_warnings(alloc: Global, dt: u32, text: &str) -> Result<Option<Vec<Warning>>, AllocError>
    ensures { IfOk result (λ told. MatchOption told (IsNoDrawing text.now) (λ warnings. AreDrawingWarnings dt text.now warnings.items)) }
{
    if let Some(warnings) = warnings_of_a_text(alloc, dt, text)? {
        return Ok(Some(warnings));
    }
    let text = without_comments(alloc, text)?;
    warnings_of_a_text(alloc, dt, text.as_str())
}

/// The same of a plant's text, with this time from each evaluation to the next.
fn plant_warnings(
    alloc: Global,
    time: ScanTime<'_>,
    text: &str,
) -> Result<Option<PlantWarnings>, AllocError>
    ensures { IfOk result (λ told. MatchOption told (IsNoPlantEither text.now) (ArePlantWarnings time.entry text.now)) }
{
    if let Some(warnings) = warnings_of_a_plant(alloc, time, text)? {
        return Ok(Some(warnings));
    }
    let text = without_comments(alloc, text)?;
    warnings_of_a_plant(alloc, time, text.as_str())
}

/// Tells the warnings of a drawing; whether there are none. An error is want of memory.
fn tell_drawing<R: Eprint + AllocGlobal>(
    rt: &R,
    file: &str,
    dt: u32,
    text: &str,
) -> io::Result<Result<bool, AllocError>>
    ensures { IfOk result (λ told. IfOk told (IsDrawingQuiet dt text.now)) }
{
    match drawing_warnings(rt.alloc(), dt, text) {
        Ok(Some(warnings)) => match print_drawing_warnings(rt, file, text, &warnings)? {
            Ok(()) => Ok(Ok(warnings.is_empty())),
            Err(fault) => Ok(Err(fault)),
        },
        Ok(None) => Ok(Ok(true)),
        Err(fault) => Ok(Err(fault)),
    }
}

/// Whether nothing is warned of in a plant.
fn is_plant_quiet(warnings: &PlantWarnings) -> bool
    ensures { result ≡ is_plant_quiet warnings.now }
{
    warnings.bodies.is_empty() && warnings.unbound.is_empty() && warnings.far.is_empty()
}

/// Tells the warnings of a plant; whether there are none. An error is want of memory.
fn tell_plant<R: Eprint + AllocGlobal>(
    rt: &R,
    file: &str,
    time: ScanTime<'_>,
    text: &str,
) -> io::Result<Result<bool, AllocError>>
    ensures { IfOk result (λ told. IfOk told (IsPlantQuiet time.entry text.now)) }
{
    match plant_warnings(rt.alloc(), time, text) {
        Ok(Some(warnings)) => match print_plant_warnings(rt, file, text, &warnings)? {
            Ok(()) => Ok(Ok(is_plant_quiet(&warnings))),
            Err(fault) => Ok(Err(fault)),
        },
        Ok(None) => Ok(Ok(true)),
        Err(fault) => Ok(Err(fault)),
    }
}

/// The status where warnings are a failure.
fn strict_status(quiet: bool, status: u8) -> u8
    ensures { result ≡ strict_status quiet status }
{
    if quiet || status != 0 {
        status
    } else {
        TEXT_REFUSED
    }
}

/// The status behind warnings; none were told where memory was wanting.
fn status_behind<R: Eprint>(
    rt: &R,
    told: Result<bool, AllocError>,
    strictness: Strictness,
    status: u8,
) -> io::Result<u8>
    ensures { IfOk result (IsStatusBehind told strictness status) }
{
    let Ok(quiet) = told else {
        return print_failure(rt, CommandFault::Memory);
    };
    match strictness {
        Strictness::Strict => Ok(strict_status(quiet, status)),
        Strictness::Told | Strictness::Silent => Ok(status),
    }
}

/// Tells the warnings of a drawing, or of the plant of a program type; whether there are none. An error is want of memory.
fn tell_ladder<R: Eprint + AllocGlobal>(
    rt: &R,
    file: &str,
    program: Option<&str>,
    dt: u32,
    text: &str,
) -> io::Result<Result<bool, AllocError>>
    ensures { IfOk result (λ told. IfOk told (IsLadderQuiet program.entry dt text.now)) }
{
    match program {
        None => tell_drawing(rt, file, dt, text),
        Some(name) => {
            let time = ScanTime {
                dt,
                program: Some(name),
            };
            tell_plant(rt, file, time, text)
        }
    }
}

/// Tells the warnings of a drawing's text, or of the plant of a program type, behind all else that is told; the status, which
/// was this one before them. The time between the scans of the drawing, or of the program type, is judged if it isn't 0.
pub fn warn_of_a_ladder<R: Eprint + AllocGlobal>(
    rt: &R,
    file: &str,
    program: Option<&str>,
    dt: u32,
    text: &str,
    strictness: Strictness,
    status: u8,
) -> io::Result<u8>
    ensures { IfOk result (EndsWarned (IsLadderQuiet program.entry dt text.now) strictness status) }
{
    match strictness {
        Strictness::Silent => Ok(status),
        Strictness::Told | Strictness::Strict => {
            let told = tell_ladder(rt, file, program, dt, text)?;
            status_behind(rt, told, strictness, status)
        }
    }
}

/// Tells the warnings of a plant's text behind all else that is told; the status, which was this one before them. The time
/// between the evaluations of all its programs is judged if it isn't 0.
pub fn warn_of_a_plant<R: Eprint + AllocGlobal>(
    rt: &R,
    file: &str,
    dt: u32,
    text: &str,
    strictness: Strictness,
    status: u8,
) -> io::Result<u8>
    ensures { IfOk result (EndsWarned (IsPlantQuiet (time_of_all dt) text.now) strictness status) }
{
    match strictness {
        Strictness::Silent => Ok(status),
        Strictness::Told | Strictness::Strict => {
            let time = ScanTime { dt, program: None };
            let told = tell_plant(rt, file, time, text)?;
            status_behind(rt, told, strictness, status)
        }
    }
}

/// Tells the warnings of the text of a request; whether there are none. An error is want of memory.
fn tell_request<R: Eprint + AllocGlobal>(
    rt: &R,
    request: &TextRequest<'_>,
    text: &str,
) -> io::Result<Result<bool, AllocError>>
    ensures { IfOk result (λ told. IfOk told (IsQuiet request.now text.now)) }
{
    match request {
        TextRequest::Eval { program, .. } => tell_ladder(rt, request.file(), *program, 0, text),
        TextRequest::Check { .. } => {
            let time = ScanTime {
                dt: 0,
                program: None,
            };
            tell_plant(rt, request.file(), time, text)
        }
        TextRequest::Plan { .. } => Ok(Ok(true)),
    }
}

/// Tells the warnings of the text of a request behind all else that is told; the status, which was this one before them.
pub fn warn<R: Eprint + AllocGlobal>(
    rt: &R,
    request: &TextRequest<'_>,
    text: &str,
    status: u8,
) -> io::Result<u8>
    ensures { IfOk result (EndsWarned (IsQuiet request.now text.now) (strictness_of request.now) status) }
{
    let strictness = request.strictness();
    match strictness {
        Strictness::Silent => Ok(status),
        Strictness::Told | Strictness::Strict => {
            let told = tell_request(rt, request, text)?;
            status_behind(rt, told, strictness, status)
        }
    }
}
