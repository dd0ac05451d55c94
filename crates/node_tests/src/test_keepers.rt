//! Keepers that tests choose.

use crate::gates::wait_for;
use evaluation::Retained;
use keepers::{Folder, FolderFault};
use node::{Keeper, KeeperFault, MemoryKeeper};
use plant::TaskCode;
use std::alloc::Global;
use std::sync::atomic::{AtomicBool, Ordering};
use std::sync::{Arc, Mutex};

/// A keeper that keeps nothing any more once it was raised.
#[derive(Drop)]
pub struct OnceKeeper {
    alloc: Global,
    last: u32,
}

impl OnceKeeper {
    pub fn new(alloc: Global) -> OnceKeeper {
        OnceKeeper { alloc, last: 0 }
    }
}

impl Keeper for OnceKeeper {
    ghost last = { λ k. k.last };

    fn raise(&mut self) -> Result<u32, KeeperFault> {
        if self.last > 0 {
            return Err(KeeperFault::Unwritable);
        }
        self.last = 1;
        Ok(1)
    }

    fn keep(
        &mut self,
        _task: usize,
        _code: &TaskCode,
        _retained: &Retained,
    ) -> Result<(), KeeperFault> {
        Err(KeeperFault::Unwritable)
    }

    fn kept(&mut self, _task: usize, code: &TaskCode) -> Result<Retained, KeeperFault> {
        Ok(Retained::initial(self.alloc, code)?)
    }
}

/// A keeper that tells nothing of what was kept.
#[derive(Drop)]
pub struct ForgetfulKeeper {
    last: u32,
}

impl ForgetfulKeeper {
    pub fn new() -> ForgetfulKeeper {
        ForgetfulKeeper { last: 0 }
    }
}

impl Keeper for ForgetfulKeeper {
    ghost last = { λ k. k.last };

    fn raise(&mut self) -> Result<u32, KeeperFault> {
        if self.last > 0 {
            return Err(KeeperFault::Unwritable);
        }
        self.last = 1;
        Ok(1)
    }

    fn keep(
        &mut self,
        _task: usize,
        _code: &TaskCode,
        _retained: &Retained,
    ) -> Result<(), KeeperFault> {
        Ok(())
    }

    fn kept(&mut self, _task: usize, _code: &TaskCode) -> Result<Retained, KeeperFault> {
        Err(KeeperFault::Unreadable)
    }
}

/// Where a keeper and a gate meet: whether the keeper is keeping, and whether the second command is done with.
#[derive(Drop)]
pub struct Meeting {
    pub is_keeping: AtomicBool,
    pub is_second_done: AtomicBool,
}

impl Meeting {
    pub fn new() -> Meeting {
        Meeting {
            is_keeping: AtomicBool::new(false),
            is_second_done: AtomicBool::new(false),
        }
    }
}

/// A keeper that, while it keeps, waits until the second command is done with.
#[derive(Drop)]
pub struct MeetingKeeper {
    pub kept: MemoryKeeper,
    pub meeting: Arc<Meeting>,
}

impl Keeper for MeetingKeeper {
    ghost last = { λ k. k.kept.last };

    fn raise(&mut self) -> Result<u32, KeeperFault> {
        self.kept.raise()
    }

    fn keep(
        &mut self,
        task: usize,
        code: &TaskCode,
        retained: &Retained,
    ) -> Result<(), KeeperFault> {
        self.meeting.is_keeping.store(true, Ordering::SeqCst);
        if wait_for(&self.meeting.is_second_done).is_err() {
            return Err(KeeperFault::Unwritable);
        }
        self.kept.keep(task, code, retained)
    }

    fn kept(&mut self, task: usize, code: &TaskCode) -> Result<Retained, KeeperFault> {
        self.kept.kept(task, code)
    }
}

/// A keeper in memory that outlives runs: each run has a share of it.
#[derive(Drop)]
pub struct SharedKeeper {
    last: u32,
    shared: Arc<Mutex<MemoryKeeper>>,
}

impl SharedKeeper {
    pub fn new(shared: Arc<Mutex<MemoryKeeper>>) -> SharedKeeper {
        SharedKeeper { last: 0, shared }
    }
}

impl Keeper for SharedKeeper {
    ghost last = { λ k. k.last };

    fn raise(&mut self) -> Result<u32, KeeperFault> {
        let mut shared = self.shared.try_lock().ok_or(KeeperFault::Unreadable)?;
        let next = shared.raise()?;
        if next <= self.last {
            return Err(KeeperFault::Unreadable);
        }
        self.last = next;
        Ok(next)
    }

    fn keep(
        &mut self,
        task: usize,
        code: &TaskCode,
        retained: &Retained,
    ) -> Result<(), KeeperFault> {
        let mut shared = self.shared.try_lock().ok_or(KeeperFault::Unwritable)?;
        shared.keep(task, code, retained)
    }

    fn kept(&mut self, task: usize, code: &TaskCode) -> Result<Retained, KeeperFault> {
        let mut shared = self.shared.try_lock().ok_or(KeeperFault::Unreadable)?;
        shared.kept(task, code)
    }
}

/// A file by its name.
#[derive(Drop)]
pub struct NamedFile {
    pub name: String,
    pub bytes: Vec<u8>,
}

/// A folder in memory that outlives runs: each keeper has a share of it.
#[derive(Drop)]
pub struct SharedFolder {
    alloc: Global,
    files: Arc<Mutex<Vec<NamedFile>>>,
}

impl SharedFolder {
    pub fn new(alloc: Global, files: Arc<Mutex<Vec<NamedFile>>>) -> SharedFolder {
        SharedFolder { alloc, files }
    }
}

impl Folder for SharedFolder {
    ghost use Rattle.keepers.specs.KnownFiles.KnownFile.{Unknown};

    ghost file = { λ _ _. Unknown };

    fn read(&self, name: &str, most: usize) -> Result<Option<Vec<u8>>, FolderFault> {
        let files = self.files.try_lock().ok_or(FolderFault::Failed)?;
        let Some(file) = files.iter().find(|file| file.name.as_str() == name) else {
            return Ok(None);
        };
        let most = most.min(file.bytes.len());
        Ok(Some(Vec::from_slice(self.alloc, &file.bytes[..most])?))
    }

    fn replace(&mut self, name: &str, _temporary: &str, bytes: &[u8]) -> Result<(), FolderFault> {
        let bytes = Vec::from_slice(self.alloc, bytes)?;
        let mut files = self.files.try_lock().ok_or(FolderFault::Failed)?;
        if let Some(file) = files.iter_mut().find(|file| file.name.as_str() == name) {
            file.bytes = bytes;
            return Ok(());
        }
        let name = String::from_str(self.alloc, name)?;
        match files.push(NamedFile { name, bytes }) {
            Ok(()) => Ok(()),
            Err(_) => Err(FolderFault::Memory),
        }
    }
}
