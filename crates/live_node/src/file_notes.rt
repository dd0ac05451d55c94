ghost use Rattle.live_node.specs.Steps.Synced.{IsSynced};

use crate::note_file::NoteFile;
use crate::notes::{NoteFault, Notes};
use std::marker::Model;

/// What of the notes is on the disk.
#[derive(Clone, Copy)]
enum Synced {
    /// All.
    All,
    /// Perhaps not the last ones.
    Less,
    /// Nobody knows: the system tells but once that it lost some.
    Unknown,
}

/// Notes to the end of a file. After a fault of the disk nothing is brought to it any more.
#[derive(Drop)]
pub struct FileNotes<F: NoteFile> {
    file: F,
    synced: Synced,
}

impl<F: NoteFile> Model for FileNotes<F> {
    ghost Value = { F };

    ghost view = { λ n. n.file };

    ghost invariant = { λ n. IsSynced (F.holds n.file) (F.kept n.file) (F.is_sound n.file) n.synced };
}

impl<F: NoteFile> FileNotes<F> {
    ghost use Rattle.std.specs.Prelude.{◌≡◌, OnOk};
    ghost use Rattle.live_node.specs.Syncing.{Grows};

    /// Notes to the end of this file, which no sync has failed yet.
    pub fn new(file: F) -> FileNotes<F>
        requires { F.is_sound file }
        ensures { result ≡ file }
    {
        FileNotes {
            file,
            synced: Synced::Less,
        }
    }

    /// Brings the file to the disk. After a fault it isn't tried again.
    fn sync_file(&mut self) -> Result<(), NoteFault>
        requires { F.is_sound self.old }
        ensures noted { F.holds self.new ≡ F.holds self.old }
        ensures synced { OnOk result (F.kept self.new ≡ F.holds self.new) }
        ensures stays { Grows (F.kept self.old) (F.kept self.new) }
    {
        match self.file.sync() {
            Ok(()) => {
                self.synced = Synced::All;
                Ok(())
            }
            Err(fault) => {
                self.synced = Synced::Unknown;
                Err(fault)
            }
        }
    }
}

impl<F: NoteFile> Notes for FileNotes<F> {
    ghost noted = { F.holds };

    ghost synced = { F.kept };

    fn note(&mut self, bytes: &[u8]) -> Result<(), NoteFault> {
        if let Synced::All = self.synced {
            self.synced = Synced::Less;
        }
        self.file.append(bytes)
    }

    fn sync(&mut self) -> Result<(), NoteFault> {
        match self.synced {
            Synced::All => Ok(()),
            Synced::Less => self.sync_file(),
            Synced::Unknown => Err(NoteFault),
        }
    }
}
