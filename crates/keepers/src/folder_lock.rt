ghost use Rattle.std.specs.Prelude.{◌≡◌};

use std::alloc::{AllocError, Global};
use std::fs;
use std::fs::{File, OpenOptions, TryLockError};
use std::io::ErrorKind;
use std::os::unix::fs::OpenOptionsExt;
use std::rt::Files;
use thiserror::Error;

/// Why a folder can't be held.
#[derive(Clone, Copy, Debug, PartialEq, Eq, Error)]
pub enum LockFault {
    /// Another program holds it.
    #[error("another run uses this folder")]
    InUse,
    /// The system has no lock for it.
    #[error("this folder can't be locked")]
    NoLock,
    /// There is no such folder.
    #[error("this folder is missing")]
    Missing,
    /// It is there, but it or its file `NAME.lock` can't be opened, or a link stands in that file's place.
    #[error("this folder's lock can't be opened")]
    Unopened,
    /// There was no memory left.
    #[error("there is no memory left")]
    Memory,
}

impl From<AllocError> for LockFault {
    ghost use Rattle.keepers.specs.declared.folder_lock.LockFault.TheVariants.{Memory};

    ghost from_gives = { λ _ fault. fault ≡ Memory };

    fn from(_fault: AllocError) -> LockFault {
        LockFault::Memory
    }
}

impl From<TryLockError> for LockFault {
    fn from(error: TryLockError) -> LockFault {
        match error {
            TryLockError::WouldBlock => LockFault::InUse,
            TryLockError::Error(_) => LockFault::NoLock,
        }
    }
}

/// Opens a folder.
fn open_folder<R: Files<File = File>>(rt: &R, path: &str) -> Result<File, LockFault> {
    match fs::open(rt, path) {
        Ok(folder) => Ok(folder),
        Err(error) if error.kind() == ErrorKind::NotFound => Err(LockFault::Missing),
        Err(_) => Err(LockFault::Unopened),
    }
}

/// Holds a folder for one program, as long as it lives.
#[derive(Drop)]
pub struct FolderLock {
    _folder: File,
}

impl FolderLock {
    /// Holds the folder of this path.
    pub fn take<R: Files<File = File>>(rt: &R, path: &str) -> Result<FolderLock, LockFault> {
        let folder = open_folder(rt, path)?;
        folder.try_lock()?;
        Ok(FolderLock { _folder: folder })
    }
}

/// Holds one resource's files of a folder for one program, as long as it lives. Other programs may hold those of other
/// resources meanwhile, and none the folder.
#[derive(Drop)]
pub struct ResourceLock {
    _folder: File,
    _file: File,
}

impl ResourceLock {
    /// Holds the files of the resource of this name in the folder of this path, by way of a file `NAME.lock`.
    pub fn take<R: Files<File = File>>(
        rt: &R,
        alloc: Global,
        path: &str,
        resource: &str,
    ) -> Result<ResourceLock, LockFault> {
        let folder = open_folder(rt, path)?;
        folder.try_lock_shared()?;
        let name = format!(in alloc; "{path}/{resource}.lock")?;
        let file = open_file(rt, name.as_str())?;
        file.try_lock()?;
        Ok(ResourceLock {
            _folder: folder,
            _file: file,
        })
    }
}

/// Whether a symbolic link stands at a path.
fn is_link<R: Files>(rt: &R, path: &str) -> bool {
    match fs::symlink_metadata(rt, path) {
        Ok(found) => found.is_symlink(),
        Err(_) => false,
    }
}

/// Opens the file of a lock, which is made where there is none, for its owner alone. A link isn't followed.
fn open_file<R: Files<File = File>>(rt: &R, path: &str) -> Result<File, LockFault> {
    if is_link(rt, path) {
        return Err(LockFault::Unopened);
    }
    let mut options = OpenOptions::new();
    options.append(true).create(true).mode(0o600);
    match options.open(rt, path) {
        Ok(file) => Ok(file),
        Err(_) => Err(LockFault::Unopened),
    }
}
