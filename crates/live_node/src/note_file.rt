ghost use Rattle.std.specs.Prelude.{◌≡◌, ℕ, List, Option, OnOk, OnErr};
ghost use Rattle.std.specs.Io.KnownBytes.{Appends};
ghost use Rattle.text_lines.specs.Sending.{SendsPart};
ghost use Rattle.live_node.specs.Syncing.{Grows};

use crate::notes::NoteFault;

/// A file to whose end notes are written, and which is brought to a disk.
pub trait NoteFile: Drop {
    /// What it holds, where that is known. Nothing is known of the system's.
    ghost holds: { Self → Option (List ℕ) };

    /// What of it is on the disk, and stays whatever becomes of the machine, where that is known.
    ghost kept: { Self → Option (List ℕ) };

    /// Whether bringing it to the disk never failed: of what was lost then a system tells but once.
    ghost is_sound: { Self → Type 0 };

    /// Writes these bytes behind those before. After a fault a beginning of them is written.
    fn append(&mut self, bytes: &[u8]) -> Result<(), NoteFault>
        ensures whole { OnOk result (Appends (holds self.old) (holds self.new) bytes.now) }
        ensures part { OnErr result (SendsPart bytes.now (holds self.old) (holds self.new)) }
        ensures stays { Grows (kept self.old) (kept self.new) }
        ensures sound { is_sound self.old → is_sound self.new };

    /// Brings all that it holds to the disk, unless that failed before: then Ok tells nothing. What was there still is.
    fn sync(&mut self) -> Result<(), NoteFault>
        ensures holds { holds self.new ≡ holds self.old }
        ensures kept { OnOk result (is_sound self.old → is_sound self.new × (kept self.new ≡ holds self.new)) }
        ensures stays { Grows (kept self.old) (kept self.new) };
}
