//! A folder in which nothing is written over but the file that is replaced.

ghost use Rattle.keepers.specs.KnownFiles.KnownFile.{Unknown};

use keepers::{Folder, FolderFault, SystemFolder};
use std::alloc::AllocError;
use std::fs::{File, OpenFile};
use std::io::Write;
use std::rt::Files;
use std::{fs, io};

/// A folder of the system, in which each temporary file is made anew, and none is in the place of another file.
#[derive(Drop)]
pub struct NewBeside<'a> {
    host: &'a HostRuntime,
    path: &'a str,
    folder: SystemFolder<HostRuntime>,
}

impl<'a> NewBeside<'a> {
    /// The folder of this path. It need not exist.
    pub fn new(host: &'a HostRuntime, path: &'a str) -> Result<NewBeside<'a>, AllocError> {
        let folder = SystemFolder::new(host.clone()?, path)?;
        Ok(NewBeside { host, path, folder })
    }
}

/// Writes bytes to a new file, up to the disk, and puts it in the place of another one.
fn write_and_rename<R: Files>(
    rt: &R,
    file: R::File,
    beside: &str,
    path: &str,
    bytes: &[u8],
) -> io::Result<()> {
    let mut file = file;
    file.write_all(bytes)?;
    file.sync_all()?;
    fs::rename(rt, beside, path)
}

/// Replaces a file by way of a new one beside it, which goes where that fails. Where something stands there already, nothing
/// is done.
fn replace_by_new<R: Files>(rt: &R, beside: &str, path: &str, bytes: &[u8]) -> io::Result<()> {
    let file = File::create_new(rt, beside)?;
    let replaced = write_and_rename(rt, file, beside, path, bytes);
    if replaced.is_err() {
        // Where it can't go it stays.
        let _gone = fs::remove_file(rt, beside);
    }
    replaced
}

impl Folder for NewBeside<'_> {
    ghost file = { λ _ _. Unknown };

    fn read(&self, name: &str, most: usize) -> Result<Option<Vec<u8>>, FolderFault> {
        self.folder.read(name, most)
    }

    fn replace(&mut self, name: &str, temporary: &str, bytes: &[u8]) -> Result<(), FolderFault> {
        let folder = self.path;
        let alloc = self.host.alloc();
        let path = format!(in alloc; "{folder}/{name}")?;
        let beside = format!(in alloc; "{folder}/{temporary}")?;
        replace_by_new(self.host, beside.as_str(), path.as_str(), bytes)?;
        Ok(fs::open(self.host, folder)?.sync_all()?)
    }
}
