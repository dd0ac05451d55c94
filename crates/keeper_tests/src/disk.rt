//! A disk in memory with the files of one folder, as programs see them and as they are left when the power fails.

use std::alloc::{AllocError, Global};
use std::io;
use std::io::ErrorKind;

/// What is asked of a disk.
#[derive(Clone, Copy, Debug, PartialEq, Eq)]
pub enum Call {
    Look,
    Open,
    Read,
    Create,
    Write,
    SyncFile,
    Rename,
    SyncFolder,
}

/// When a call fails: before it has done anything, or after it has done all.
#[derive(Clone, Copy, Debug, PartialEq, Eq)]
pub enum Moment {
    Before,
    After,
}

/// What the power leaves of what isn't synced.
#[derive(Clone, Copy, Debug, PartialEq, Eq)]
pub enum Left {
    All,
    NoNames,
    NoBytes,
    Nothing,
}

/// The bytes of a file: those that are seen, and those that are synced.
#[derive(Drop)]
struct Content {
    seen: Vec<u8>,
    synced: Vec<u8>,
}

/// Which content stands under a name: as it is seen, and as it is synced.
#[derive(Drop)]
struct Name {
    path: String,
    seen: Option<usize>,
    synced: Option<usize>,
}

#[derive(Drop)]
pub struct Disk {
    alloc: Global,
    contents: Vec<Content>,
    names: Vec<Name>,
    calls: Vec<Call>,
    fails: Option<(usize, Moment)>,
}

impl Disk {
    pub fn new(alloc: Global) -> Disk {
        Disk {
            alloc,
            contents: Vec::new(alloc),
            names: Vec::new(alloc),
            calls: Vec::new(alloc),
            fails: None,
        }
    }

    /// From now on calls are counted from 0, and this one fails.
    pub fn fail(&mut self, fails: Option<(usize, Moment)>) {
        self.calls.clear();
        self.fails = fails;
    }

    pub fn calls(&self) -> &[Call] {
        &self.calls
    }

    fn is_failing(&self, moment: Moment) -> bool {
        self.fails == Some((self.calls.len(), moment))
    }

    /// A call begins: it fails here, or goes on.
    fn begin(&self) -> io::Result<()> {
        if self.is_failing(Moment::Before) {
            return Err(io::Error::from(ErrorKind::Other));
        }
        Ok(())
    }

    /// A call has done what it does.
    fn end(&mut self, call: Call) -> io::Result<()> {
        let is_failing = self.is_failing(Moment::After);
        self.calls.push(call)?;
        if is_failing {
            return Err(io::Error::from(ErrorKind::Other));
        }
        Ok(())
    }

    fn place_of(&self, path: &str) -> Option<usize> {
        self.names
            .iter()
            .position(|name| name.path.as_str() == path)
    }

    /// The content that is seen under a name.
    fn content_of(&self, path: &str) -> Option<usize> {
        self.names.get(self.place_of(path)?)?.seen
    }

    /// Puts a content under a name, as it is seen.
    fn put(&mut self, path: &str, content: Option<usize>) -> Result<(), AllocError> {
        let place = self.place_of(path);
        match place.and_then(|place| self.names.get_mut(place)) {
            Some(name) => name.seen = content,
            None => self.names.push(Name {
                path: String::from_str(self.alloc, path)?,
                seen: content,
                synced: None,
            })?,
        }
        Ok(())
    }

    /// Whether a name is there; its length.
    pub fn look(&mut self, path: &str) -> io::Result<Option<usize>> {
        self.begin()?;
        let content = self.content_of(path).and_then(|at| self.contents.get(at));
        let length = content.map(|content| content.seen.len());
        self.end(Call::Look)?;
        Ok(length)
    }

    /// Opens a file to read it.
    pub fn open(&mut self, path: &str) -> io::Result<Option<usize>> {
        self.begin()?;
        let content = self.content_of(path);
        self.end(Call::Open)?;
        Ok(content)
    }

    /// Opens a file without bytes to write it.
    pub fn create(&mut self, path: &str) -> io::Result<usize> {
        self.begin()?;
        let content = self.contents.len();
        self.contents.push(Content {
            seen: Vec::new(self.alloc),
            synced: Vec::new(self.alloc),
        })?;
        self.put(path, Some(content))?;
        self.end(Call::Create)?;
        Ok(content)
    }

    /// The byte of a content at a place.
    pub fn read(&mut self, content: usize, at: usize) -> io::Result<Option<u8>> {
        self.begin()?;
        let content = self.contents.get(content);
        let byte = content.and_then(|content| content.seen.get(at).copied());
        self.end(Call::Read)?;
        Ok(byte)
    }

    /// One more byte of a content.
    pub fn write(&mut self, content: usize, byte: u8) -> io::Result<()> {
        self.begin()?;
        if let Some(content) = self.contents.get_mut(content) {
            content.seen.push(byte)?;
        }
        self.end(Call::Write)
    }

    pub fn sync_file(&mut self, content: usize) -> io::Result<()> {
        self.begin()?;
        if let Some(content) = self.contents.get_mut(content) {
            content.synced = content.seen.clone()?;
        }
        self.end(Call::SyncFile)
    }

    pub fn rename(&mut self, from: &str, to: &str) -> io::Result<()> {
        self.begin()?;
        let content = self.content_of(from);
        self.put(from, None)?;
        self.put(to, content)?;
        self.end(Call::Rename)
    }

    pub fn sync_folder(&mut self) -> io::Result<()> {
        self.begin()?;
        for name in &mut self.names {
            name.synced = name.seen;
        }
        self.end(Call::SyncFolder)
    }

    /// Puts bytes into a file, synced.
    pub fn fill(&mut self, path: &str, bytes: &str) -> io::Result<()> {
        let content = self.create(path)?;
        for &byte in bytes.as_bytes() {
            self.write(content, byte)?;
        }
        self.sync_file(content)?;
        self.sync_folder()
    }

    pub fn remove(&mut self, path: &str) -> io::Result<()> {
        self.put(path, None)?;
        self.sync_folder()
    }

    /// The bytes of a file that are left when the power fails now.
    pub fn left(&self, path: &str, left: Left) -> Option<&[u8]> {
        let name = self.names.get(self.place_of(path)?)?;
        let content = match left {
            Left::All | Left::NoBytes => name.seen?,
            Left::NoNames | Left::Nothing => name.synced?,
        };
        let content = self.contents.get(content)?;
        Some(match left {
            Left::All | Left::NoNames => &content.seen,
            Left::NoBytes | Left::Nothing => &content.synced,
        })
    }
}
