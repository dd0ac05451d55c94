ghost use Rattle.std.specs.Prelude.{ℕ, List, Option, Result};
ghost use Rattle.std.specs.Global.{Vec as VecValue};
ghost use Rattle.keepers.specs.KnownFiles.{KnownFile, IsRead, IsReplacing};
ghost use Rattle.keepers.specs.declared.folder_fault.FolderFault.{FolderFault as Fault};

use crate::folder_fault::FolderFault;

/// A folder whose files are read, and replaced as wholes.
pub trait Folder: Drop {
    /// What is known of a file by its name. Nothing is known of the system's.
    ghost file: { Self → List ℕ → KnownFile };

    /// What this folder may answer where so many of the first bytes of a file are to be read; anything, where a folder doesn't
    /// say it.
    ghost read_gives: { Self → List ℕ → ℕ → Result (Option (VecValue ℕ)) Fault → Type 0 } = { λ folder name most answer. Unit {0} };

    /// What this folder may answer where a file is to be replaced, by way of a temporary one, by bytes; anything, where a
    /// folder doesn't say it.
    ghost replace_gives: { Self → List ℕ → List ℕ → List ℕ → Result (Unit {0}) Fault → Type 0 } = { λ folder name temporary bytes answer. Unit {0} };

    /// The first `most` bytes of a file, all if it has no more; None where there is no such file.
    fn read(&self, name: &str, most: usize) -> Result<Option<Vec<u8>>, FolderFault>
        ensures read { IsRead (file self.now name.now) most result }
        ensures answered { read_gives self.now name.now most result };

    /// Puts these bytes in the place of what a file holds, by way of the file `temporary`. The file is never seen in
    /// part: it holds what it held, or these bytes; after Ok it holds these, whatever becomes of the program.
    fn replace(&mut self, name: &str, temporary: &str, bytes: &[u8]) -> Result<(), FolderFault>
        ensures replaced { IsReplacing (file self.old) (file self.new) name.now temporary.now bytes.now result }
        ensures answered { replace_gives self.old name.now temporary.now bytes.now result };
}
