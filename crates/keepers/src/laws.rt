//! What holds of keepers that come one after the other.

ghost use Rattle.keepers.specs.Successors.{RaisesRise};

use crate::folder::Folder;

/// What a [`FileKeeper`](crate::FileKeeper) of a resource answers to a raise is above all that one before it, or itself, answered over the same files. That is said of a folder whose files are known.
pub fn raises_rise<F: Folder>()
    ensures { RaisesRise F.replace_gives F.file }
{}
