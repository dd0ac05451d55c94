//! The files that a command reads, and those that it writes.

ghost use Rattle.std.specs.Prelude.{◌≡◌, ◌++◌, IfOk, OnOk, codes, map};
ghost use Rattle.console.specs.CommandLine.{file_of, files_in, second_in};
ghost use Rattle.plc_main.specs.UsedFiles.{files_of, named, read, read_any, read_if_given, traces, written};

use crate::clashes::{FileUse, Identity};
use crate::trace_files::folder_and_name;
use console::{
    NodeRequest, Request, RunRequest, SimRequest, TextRequest, TraceFiles, VerifyRequest,
};
use std::alloc::{AllocError, Global};
use std::fs;
use std::fs::Metadata;
use std::os::unix::fs::MetadataExt;
use std::rt::Files;

/// Where standard input is found.
const INPUT: &str = "/dev/stdin";

/// What the system knows what is there by.
fn known(found: &Metadata) -> Identity<'static> {
    Identity {
        device: found.dev(),
        number: found.ino(),
        name: "",
    }
}

/// The folder of a path, and the name there. None: the system can't be asked for it.
fn place<'a, R: Files>(rt: &R, path: &'a str) -> Option<Identity<'a>> {
    let (folder, name) = folder_and_name(path);
    let found = fs::metadata(rt, folder).ok()?;
    Some(Identity {
        name,
        ..known(&found)
    })
}

/// What the system knows the file of a path by. None: it can't be asked, or what is there is no file, and isn't lost where
/// it is written to.
fn identity<'a, R: Files>(rt: &R, path: &'a str) -> Option<Identity<'a>> {
    match fs::metadata(rt, path) {
        Ok(found) => found.is_file().then_some(known(&found)),
        Err(_) => place(rt, path),
    }
}

/// What the system knows the file by that standard input is. None: it is none.
fn input_identity<R: Files>(rt: &R) -> Option<Identity<'static>> {
    let found = fs::metadata(rt, INPUT).ok()?;
    found.is_file().then_some(known(&found))
}

/// What the system knows a folder by. None: there is none of this path.
fn folder_identity<R: Files>(rt: &R, path: &str) -> Option<Identity<'static>> {
    let found = fs::metadata(rt, path).ok()?;
    found.is_dir().then_some(known(&found))
}

/// Adds a file that is read, or standard input where that is `-`.
fn push_read_any<'a, R: Files>(
    rt: &R,
    files: &mut Vec<FileUse<'a>>,
    path: &'a str,
) -> Result<(), AllocError>
    ensures { OnOk result (map named files.new.items ≡ map named files.old.items ++ read_any path.entry.now) }
{
    let identity = if path == "-" {
        input_identity(rt)
    } else {
        identity(rt, path)
    };
    files.push(FileUse {
        path,
        option: None,
        identity,
        place: None,
    })?;
    Ok(())
}

/// Adds a file that is read. None is where the path is `-`.
fn push_read<'a, R: Files>(
    rt: &R,
    files: &mut Vec<FileUse<'a>>,
    path: &'a str,
) -> Result<(), AllocError>
    ensures { OnOk result (map named files.new.items ≡ map named files.old.items ++ read path.entry.now) }
{
    if path == "-" {
        return Ok(());
    }
    push_read_any(rt, files, path)
}

/// Adds a file that is read, where there is one.
fn push_read_if_given<'a, R: Files>(
    rt: &R,
    files: &mut Vec<FileUse<'a>>,
    path: Option<&'a str>,
) -> Result<(), AllocError>
    ensures { OnOk result (map named files.new.items ≡ map named files.old.items ++ read_if_given path.entry) }
{
    match path {
        Some(path) => push_read(rt, files, path),
        None => Ok(()),
    }
}

/// Adds a file that is written for an option, where there is one.
fn push_written<'a, R: Files>(
    rt: &R,
    files: &mut Vec<FileUse<'a>>,
    path: Option<&'a str>,
    option: &'static str,
) -> Result<(), AllocError>
    ensures { OnOk result (map named files.new.items ≡ map named files.old.items ++ written path.entry option.entry.now) }
{
    let Some(path) = path else {
        return Ok(());
    };
    files.push(FileUse {
        path,
        option: Some(option),
        identity: identity(rt, path),
        place: place(rt, path),
    })?;
    Ok(())
}

/// Adds the folder of state, where there is one.
fn push_state<'a, R: Files>(
    rt: &R,
    files: &mut Vec<FileUse<'a>>,
    folder: Option<&'a str>,
) -> Result<(), AllocError>
    ensures { OnOk result (map named files.new.items ≡ map named files.old.items ++ written folder.entry (codes "--state")) }
{
    let Some(path) = folder else {
        return Ok(());
    };
    files.push(FileUse {
        path,
        option: Some("--state"),
        identity: folder_identity(rt, path),
        place: None,
    })?;
    Ok(())
}

/// Adds the files of a trace.
fn push_traces<'a, R: Files>(
    rt: &R,
    files: &mut Vec<FileUse<'a>>,
    traced: TraceFiles<'a>,
) -> Result<(), AllocError>
    ensures { OnOk result (map named files.new.items ≡ map named files.old.items ++ traces traced.entry) }
{
    push_written(rt, files, traced.vcd, "--vcd")?;
    push_written(rt, files, traced.svg, "--svg")
}

fn files_of_text<'a, R: Files>(
    rt: &R,
    alloc: Global,
    request: &TextRequest<'a>,
) -> Result<Vec<FileUse<'a>>, AllocError>
    ensures { IfOk result (λ files. map named files.items
        ≡ read (file_of request.now) ++ read_if_given (second_in request.now) ++ traces (files_in request.now)) }
{
    let mut files = Vec::new(alloc);
    push_read(rt, &mut files, request.file())?;
    push_read_if_given(rt, &mut files, request.second())?;
    push_traces(rt, &mut files, request.files())?;
    Ok(files)
}

fn files_of_sim<'a, R: Files>(
    rt: &R,
    alloc: Global,
    request: &SimRequest<'a>,
) -> Result<Vec<FileUse<'a>>, AllocError>
    ensures { IfOk result (λ files. map named files.items
        ≡ read request.now.plant.now ++ read_any request.now.schedule.now ++ traces request.now.files) }
{
    let mut files = Vec::new(alloc);
    push_read(rt, &mut files, request.plant)?;
    push_read_any(rt, &mut files, request.schedule)?;
    push_traces(rt, &mut files, request.files)?;
    Ok(files)
}

fn files_of_run<'a, R: Files>(
    rt: &R,
    alloc: Global,
    request: &RunRequest<'a>,
) -> Result<Vec<FileUse<'a>>, AllocError>
    ensures { IfOk result (λ files. map named files.items
        ≡ read request.now.plant.now ++ written request.now.state (codes "--state") ++ traces request.now.files) }
{
    let mut files = Vec::new(alloc);
    push_read(rt, &mut files, request.plant)?;
    push_state(rt, &mut files, request.state)?;
    push_traces(rt, &mut files, request.files)?;
    Ok(files)
}

fn files_of_node<'a, R: Files>(
    rt: &R,
    alloc: Global,
    request: &NodeRequest<'a>,
) -> Result<Vec<FileUse<'a>>, AllocError>
    ensures { IfOk result (λ files. map named files.items
        ≡ read request.now.plant.now ++ read_any (codes "-") ++ read_if_given request.now.field
        ++ written request.now.state (codes "--state") ++ written request.now.journal (codes "--journal")) }
{
    let mut files = Vec::new(alloc);
    push_read(rt, &mut files, request.plant)?;
    push_read_any(rt, &mut files, "-")?;
    push_read_if_given(rt, &mut files, request.field)?;
    push_state(rt, &mut files, request.state)?;
    push_written(rt, &mut files, request.journal, "--journal")?;
    Ok(files)
}

fn files_of_verify<'a, R: Files>(
    rt: &R,
    alloc: Global,
    request: &VerifyRequest<'a>,
) -> Result<Vec<FileUse<'a>>, AllocError>
    ensures { IfOk result (λ files. map named files.items
        ≡ read request.now.file.now ++ read_if_given request.now.second ++ written request.now.certificate (codes "--certificate")) }
{
    let mut files = Vec::new(alloc);
    push_read(rt, &mut files, request.file)?;
    push_read_if_given(rt, &mut files, request.second)?;
    push_written(rt, &mut files, request.certificate, "--certificate")?;
    Ok(files)
}

/// The files that a command reads, and then those that it writes; none, where it never writes any.
pub fn files_of<'a, R: Files>(
    rt: &R,
    alloc: Global,
    request: &Request<'a>,
) -> Result<Vec<FileUse<'a>>, AllocError>
    ensures { IfOk result (λ files. map named files.items ≡ files_of request.now) }
{
    match request {
        Request::Text(request) => files_of_text(rt, alloc, request),
        Request::Sim(request) => files_of_sim(rt, alloc, request),
        Request::Run(request) => files_of_run(rt, alloc, request),
        Request::Node(request) => files_of_node(rt, alloc, request),
        Request::Verify(request) => files_of_verify(rt, alloc, request),
        Request::Explain(_) | Request::Page(_) | Request::Audit(_) => { Ok(Vec::new(alloc)) }
    }
}
