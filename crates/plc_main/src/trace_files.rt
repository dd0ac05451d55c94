//! The files of a trace.

ghost use Rattle.std.specs.Prelude.{◌≡◌, ◌++◌, [], ◌∷◌, IfOk, List, None, Option, string_bytes};
ghost use Rattle.std.specs.Option.{option_map};
ghost use Rattle.plc_main.specs.Files.{EndsCertificate, EndsFiles, FileText, due, files_due, with_files};
ghost use Rattle.plc_main.specs.Steps.Replacing.{IsFreeName, IsReplacedBeside, name_beside};

use crate::new_beside::NewBeside;
use console::{Answered, FAILED, Shown, TraceFiles, Verified};
use keepers::{Folder, FolderFault};
use std::alloc::{AllocError, Global};
use std::io;
use traces::TraceTexts;

/// What takes texts as whole files.
pub trait TextFiles {
    /// The paths and texts that came so far, where that is known. Of the system's nothing is known.
    ghost came: { Self → Option (List FileText) };

    /// Puts a text in the place of what the file of this path holds; whether it went well.
    fn put(&mut self, path: &str, text: &str) -> io::Result<bool>
        ensures { IfOk result (λ put. came self.new ≡ with_files (came self.old) ((path.now, text.now) ∷ [])) };
}

/// How many names there are for a temporary file.
const NAMES: u32 = 10;

/// A name for a temporary file beside a file; they count from 0.
fn name_beside(alloc: Global, name: &str, k: u32) -> Result<String, AllocError>
    ensures { IfOk result (λ temporary. string_bytes temporary ≡ name_beside name.now k) }
{
    if k == 0 {
        return format!(in alloc; "{name}.tmp");
    }
    format!(in alloc; "{name}.{k}.tmp")
}

/// The first name for a temporary file at which nothing stands. Failed: there is none.
#[tactic(auto, using(crate::proofs::Replacing::is_free_name))]
fn free_name<F: Folder>(alloc: Global, folder: &F, name: &str) -> Result<String, FolderFault>
    ensures { IfOk result (λ free. IsFreeName (F.file folder.now) name.now (string_bytes free)) }
{
    for k in 0..NAMES {
        let temporary = name_beside(alloc, name, k)?;
        if let Ok(None) = folder.read(temporary.as_str(), 0) {
            return Ok(temporary);
        }
    }
    Err(FolderFault::Failed)
}

/// Puts a text in the place of what a file of a folder holds, by way of a file beside it, at whose name nothing stood.
#[tactic(auto, using(crate::proofs::Replacing::replaced_beside, crate::proofs::Replacing::not_begun))]
fn keep_text<F: Folder>(
    alloc: Global,
    folder: &mut F,
    name: &str,
    text: &str,
) -> Result<(), FolderFault>
    ensures { IsReplacedBeside (F.file folder.old) (F.file folder.new) name.now text.now result }
{
    let temporary = free_name(alloc, folder, name)?;
    folder.replace(name, temporary.as_str(), text.as_bytes())
}

/// The folder of a path, and the name of the file there.
pub fn folder_and_name(path: &str) -> (&str, &str) {
    match path.rsplit_once('/') {
        Some(("", name)) => ("/", name),
        Some(parts) => parts,
        None => (".", path),
    }
}

/// Writes a text as the file of this path. What is there and no file is a fault.
fn store(host: &HostRuntime, path: &str, text: &str) -> Result<(), FolderFault> {
    let (folder, name) = folder_and_name(path);
    let mut folder = NewBeside::new(host, folder)?;
    folder.read(name, 0)?;
    keep_text(host.alloc(), &mut folder, name, text)
}

/// The files of the system; what can't be written is told on standard error.
#[derive(Drop)]
pub struct SystemFiles<'a, R> {
    pub rt: &'a R,
    pub host: &'a HostRuntime,
}

impl<R: Eprint> TextFiles for SystemFiles<'_, R> {
    ghost came = { λ _. None };

    fn put(&mut self, path: &str, text: &str) -> io::Result<bool> {
        match store(self.host, path, text) {
            Ok(()) => Ok(true),
            Err(_) => {
                let path = Shown(path);
                eprintln!(self.rt; "plc: {path}: the file can't be written")?;
                Ok(false)
            }
        }
    }
}

/// Puts a text, if there is one and a file for it; whether all went well.
fn put_text<F: TextFiles>(to: &mut F, file: Option<&str>, text: Option<String>) -> io::Result<bool>
    ensures { IfOk result (λ put. F.came to.new ≡ with_files (F.came to.old) (due file.entry (option_map (λ t. string_bytes t) text))) }
{
    let Some(file) = file else {
        return Ok(true);
    };
    match text {
        Some(text) => to.put(file, text.as_str()),
        None => Ok(true),
    }
}

/// Puts the texts of a trace; whether all went well.
fn put_texts<F: TextFiles>(to: &mut F, files: TraceFiles<'_>, texts: TraceTexts) -> io::Result<bool>
    ensures { IfOk result (λ put. F.came to.new ≡ with_files (F.came to.old) (files_due files.entry texts)) }
{
    let TraceTexts { dump, diagram } = texts;
    let is_dumped = put_text(to, files.vcd, dump)?;
    let is_drawn = put_text(to, files.svg, diagram)?;
    Ok(is_dumped && is_drawn)
}

/// Writes the file of the certificates; the status.
pub fn write_certificates<F: TextFiles>(
    to: &mut F,
    file: Option<&str>,
    verified: Verified,
) -> io::Result<u8>
    ensures { IfOk result (EndsCertificate file.entry verified (F.came to.old) (F.came to.new)) }
{
    let Verified {
        status,
        certificates,
    } = verified;
    Ok(if put_text(to, file, certificates)? {
        status
    } else {
        FAILED
    })
}

/// Writes the files of a trace; the status.
pub fn write_files<F: TextFiles>(
    to: &mut F,
    files: TraceFiles<'_>,
    answered: Answered,
) -> io::Result<u8>
    ensures { IfOk result (EndsFiles files.entry answered (F.came to.old) (F.came to.new)) }
{
    let Answered { status, texts } = answered;
    Ok(if put_texts(to, files, texts)? {
        status
    } else {
        FAILED
    })
}
