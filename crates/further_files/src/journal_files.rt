ghost use Rattle.std.specs.Prelude.{◌≡◌, ℕ, List, Option, OnOk, OnErr};
ghost use Rattle.std.specs.Io.KnownBytes.{Appends};
ghost use Rattle.text_lines.specs.Sending.{SendsPart};
ghost use Rattle.live_node.specs.Syncing.{Grows};
ghost use Rattle.further_files.specs.Turning.{BeginsWith};

use live_node::NoteFault;

/// The files of a journal. What is noted goes to the end of the last one.
pub trait JournalFiles: Drop {
    /// What is noted in all of them, but for the first lines of the further ones, where that is known.
    ghost noted: { Self → Option (List ℕ) };

    /// What of it is on the disk, and stays whatever becomes of the machine, where that is known.
    ghost synced: { Self → Option (List ℕ) };

    /// What the last one holds, where that is known.
    ghost last: { Self → Option (List ℕ) };

    /// Notes these bytes behind those before. After a fault a beginning of them is noted.
    fn note(&mut self, bytes: &[u8]) -> Result<(), NoteFault>
        ensures whole { OnOk result (Appends (noted self.old) (noted self.new) bytes.now) }
        ensures last { OnOk result (Appends (last self.old) (last self.new) bytes.now) }
        ensures part { OnErr result (SendsPart bytes.now (noted self.old) (noted self.new)) }
        ensures stays { Grows (synced self.old) (synced self.new) };

    /// Brings all that is noted to the disk. After a fault what was there still is.
    fn sync(&mut self) -> Result<(), NoteFault>
        ensures noted { noted self.new ≡ noted self.old }
        ensures last { last self.new ≡ last self.old }
        ensures synced { OnOk result (synced self.new ≡ noted self.new) }
        ensures stays { Grows (synced self.old) (synced self.new) };

    /// Goes on in a new file of this number, which begins with this line. All that is noted is on the disk before.
    fn go_on(&mut self, number: u64, line: &[u8]) -> Result<(), NoteFault>
        ensures noted { noted self.new ≡ noted self.old }
        ensures last { OnOk result (BeginsWith line.now (last self.old) (last self.new)) }
        ensures synced { OnOk result (synced self.new ≡ noted self.new) }
        ensures stays { Grows (synced self.old) (synced self.new) };
}
