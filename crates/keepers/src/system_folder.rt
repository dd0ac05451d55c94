ghost use Rattle.keepers.specs.KnownFiles.KnownFile.{Unknown};

use crate::folder::Folder;
use crate::folder_fault::FolderFault;
use std::alloc::{AllocError, Global};
use std::fs::{OpenFile, OpenOptions};
use std::io::{ErrorKind, Read, Write};
use std::os::unix::fs::OpenOptionsExt;
use std::rt::Files;
use std::{fs, io};

/// A folder of the system.
#[derive(Drop)]
pub struct SystemFolder<R: Files + Alloc<A = Global> + Drop> {
    rt: R,
    path: String,
    /// The mode of files that are made, as far as the system's `umask` lets.
    mode: u32,
}

impl<R: Files + Alloc<A = Global> + Drop> SystemFolder<R> {
    /// The folder of this path. It need not exist.
    pub fn new(rt: R, path: &str) -> Result<SystemFolder<R>, AllocError> {
        let path = String::from_str(rt.alloc(), path)?;
        let mode = 0o666;
        Ok(SystemFolder { rt, path, mode })
    }

    /// The same folder, in which files are made for their owner alone.
    pub fn private(self) -> SystemFolder<R> {
        let mut folder = self;
        folder.mode = 0o600;
        folder
    }

    /// The path of a file; none where the folder has none.
    fn path_of(&self, name: &str) -> Result<String, AllocError> {
        if self.path.is_empty() {
            return Ok(String::new(self.rt.alloc()));
        }
        format!(in self.rt.alloc(); "{}/{name}", self.path)
    }

    /// The first bytes of the file at this path; None where there is none.
    fn read_file(&self, path: &str, most: usize) -> io::Result<Option<Vec<u8>>> {
        if !is_there(&self.rt, path)? {
            return Ok(None);
        }
        // What is no file may keep a reader waiting.
        if !fs::metadata(&self.rt, path)?.is_file() {
            return Err(io::Error::from(ErrorKind::InvalidInput));
        }
        let file = fs::open(&self.rt, path)?;
        let mut bytes = Vec::new(self.rt.alloc());
        file.take(most as u64).read_to_end(&mut bytes)?;
        Ok(Some(bytes))
    }

    /// Writes a file beside, up to the disk, and then puts it in the place of another one, up to the disk too.
    fn replace_file(&self, path: &str, beside: &str, bytes: &[u8]) -> io::Result<()> {
        write_synced(&self.rt, beside, self.mode, bytes)?;
        fs::rename(&self.rt, beside, path)?;
        fs::open(&self.rt, self.path.as_str())?.sync_all()
    }
}

/// Whether something stands at a path, also a link to nothing.
fn is_there<R: Files>(rt: &R, path: &str) -> io::Result<bool> {
    match fs::symlink_metadata(rt, path) {
        Ok(_) => Ok(true),
        Err(error) if error.kind() == ErrorKind::NotFound => Ok(false),
        Err(error) => Err(error),
    }
}

/// A new file. What stood there, as after a crash, goes; a link isn't followed.
fn new_file<R: Files>(rt: &R, path: &str, mode: u32) -> io::Result<R::File> {
    let mut options = OpenOptions::new();
    options.write(true).create_new(true).mode(mode);
    match options.open(rt, path) {
        Err(error) if error.kind() == ErrorKind::AlreadyExists => {
            fs::remove_file(rt, path)?;
            options.open(rt, path)
        }
        opened => opened,
    }
}

/// Writes bytes to a new file, all of them, up to the disk.
fn write_synced<R: Files>(rt: &R, path: &str, mode: u32, bytes: &[u8]) -> io::Result<()> {
    let mut file = new_file(rt, path, mode)?;
    file.write_all(bytes)?;
    file.sync_all()
}

impl<R: Files + Alloc<A = Global> + Drop> Folder for SystemFolder<R> {
    ghost file = { λ _ _. Unknown };

    fn read(&self, name: &str, most: usize) -> Result<Option<Vec<u8>>, FolderFault> {
        let path = self.path_of(name)?;
        Ok(self.read_file(path.as_str(), most)?)
    }

    fn replace(&mut self, name: &str, temporary: &str, bytes: &[u8]) -> Result<(), FolderFault> {
        let (path, beside) = (self.path_of(name)?, self.path_of(temporary)?);
        Ok(self.replace_file(path.as_str(), beside.as_str(), bytes)?)
    }
}
