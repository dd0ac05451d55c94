//! The files of a disk in memory, as a program meets them.

ghost use Rattle.std.specs.Prelude.{IsErr};

use crate::disk::Disk;
use std::alloc::{AllocError, Allocator, Global};
use std::fs::{Metadata, OpenFile, OpenOptions};
use std::io;
use std::io::{ErrorKind, Read, Seek, SeekFrom, Write};
use std::rt::Files;
use std::sync::{Arc, Mutex, MutexGuard};

/// The folder that is there.
pub const FOLDER: &str = "D";

#[derive(Drop)]
pub struct DiskFiles {
    alloc: Global,
    disk: Arc<Mutex<Disk>>,
}

/// What an open file is: the folder itself, or a content and how much of it is read.
#[derive(Clone, Copy)]
enum Opened {
    Folder,
    Content(usize, usize),
}

#[derive(Drop)]
pub struct DiskFile {
    disk: Arc<Mutex<Disk>>,
    opened: Opened,
}

impl DiskFiles {
    pub fn new(alloc: Global) -> Result<DiskFiles, AllocError> {
        let disk = Arc::new(alloc, Mutex::new(Disk::new(alloc)))?;
        Ok(DiskFiles { alloc, disk })
    }

    /// The same disk.
    pub fn share(&self) -> Result<DiskFiles, AllocError> {
        Ok(DiskFiles {
            alloc: self.alloc,
            disk: Arc::try_clone(&self.disk)?,
        })
    }

    pub fn disk(&self) -> io::Result<MutexGuard<'_, Disk>> {
        held(&self.disk)
    }
}

/// The disk, of which no other thread knows.
fn held(disk: &Mutex<Disk>) -> io::Result<MutexGuard<'_, Disk>> {
    disk.try_lock()
        .ok_or_else(|| io::Error::from(ErrorKind::WouldBlock))
}

fn unsupported<T>() -> io::Result<T>
    ensures { IsErr result }
{
    Err(io::Error::from(ErrorKind::Unsupported))
}

impl Alloc for DiskFiles {
    type A = Global;

    fn alloc(&self) -> Global {
        self.alloc
    }
}

impl Files for DiskFiles {
    type File = DiskFile;

    type Dir = io::Empty;

    fn open_file(&self, how: &OpenOptions, path: &str) -> io::Result<DiskFile> {
        let disk = Arc::try_clone(&self.disk)?;
        if path == FOLDER {
            let opened = Opened::Folder;
            return Ok(DiskFile { disk, opened });
        }
        let content = if how.asks_write() {
            Some(self.disk()?.create(path)?)
        } else {
            self.disk()?.open(path)?
        };
        match content {
            Some(content) => Ok(DiskFile {
                disk,
                opened: Opened::Content(content, 0),
            }),
            None => Err(io::Error::from(ErrorKind::NotFound)),
        }
    }

    fn metadata(&self, path: &str) -> io::Result<Metadata> {
        match self.disk()?.look(path)? {
            Some(length) => Ok(Metadata::of_file(length as u64)),
            None => Err(io::Error::from(ErrorKind::NotFound)),
        }
    }

    fn symlink_metadata(&self, path: &str) -> io::Result<Metadata> {
        self.metadata(path)
    }

    fn rename(&self, from: &str, to: &str) -> io::Result<()> {
        self.disk()?.rename(from, to)
    }

    fn open_dir(&self, _path: &str) -> io::Result<io::Empty> {
        unsupported()
    }

    fn copy(&self, _from: &str, _to: &str) -> io::Result<u64> {
        unsupported()
    }

    fn remove_file(&self, _path: &str) -> io::Result<()> {
        unsupported()
    }

    fn create_dir(&self, _path: &str) -> io::Result<()> {
        unsupported()
    }

    fn remove_dir(&self, _path: &str) -> io::Result<()> {
        unsupported()
    }

    fn remove_dir_all<B: Allocator>(&self, _alloc: B, _path: &str) -> io::Result<()> {
        unsupported()
    }
}

impl OpenFile for DiskFile {
    fn metadata(&self) -> io::Result<Metadata> {
        unsupported()
    }

    fn set_len(&self, _size: u64) -> io::Result<()> {
        unsupported()
    }

    fn sync_all(&self) -> io::Result<()> {
        match self.opened {
            Opened::Folder => held(&self.disk)?.sync_folder(),
            Opened::Content(content, _) => held(&self.disk)?.sync_file(content),
        }
    }

    fn sync_data(&self) -> io::Result<()> {
        self.sync_all()
    }
}

/// Gives a byte at a time.
impl Read for DiskFile {
    fn read(&mut self, buf: &mut [u8]) -> io::Result<usize> {
        let Opened::Content(content, at) = self.opened else {
            return unsupported();
        };
        let Some(first) = buf.first_mut() else {
            return Ok(0);
        };
        let byte = held(&self.disk)?.read(content, at)?;
        let Some(byte) = byte else {
            return Ok(0);
        };
        *first = byte;
        self.opened = Opened::Content(content, at.saturating_add(1));
        Ok(1)
    }
}

/// Takes a byte at a time.
impl Write for DiskFile {
    fn write(&mut self, buf: &[u8]) -> io::Result<usize> {
        let Opened::Content(content, _) = self.opened else {
            return unsupported();
        };
        let Some(&byte) = buf.first() else {
            return Ok(0);
        };
        held(&self.disk)?.write(content, byte)?;
        Ok(1)
    }

    fn flush(&mut self) -> io::Result<()> {
        Ok(())
    }
}

impl Seek for DiskFile {
    fn seek(&mut self, _to: SeekFrom) -> io::Result<u64> {
        unsupported()
    }
}
