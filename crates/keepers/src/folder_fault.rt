ghost use Rattle.std.specs.Prelude.{◌≡◌, ◌↔◌};

use std::alloc::AllocError;
use std::io;
use std::io::ErrorKind;

/// Why a file of a folder isn't read or replaced.
#[derive(Clone, Copy, Debug, PartialEq, Eq)]
pub enum FolderFault {
    /// The folder can't do it.
    Failed,
    /// There was no memory left.
    Memory,
}

impl From<AllocError> for FolderFault {
    ghost use Rattle.keepers.specs.declared.folder_fault.FolderFault.TheVariants.{Memory};

    ghost from_gives = { λ _ fault. fault ≡ Memory };

    fn from(_fault: AllocError) -> FolderFault {
        FolderFault::Memory
    }
}

impl From<io::Error> for FolderFault {
    ghost use Rattle.std.specs.IoError.{error_kind};
    ghost use Rattle.std.specs.declared.io.ErrorKind.TheVariants.{OutOfMemory};
    ghost use Rattle.keepers.specs.declared.folder_fault.FolderFault.TheVariants.{Memory};

    ghost from_gives = { λ error fault. (fault ≡ Memory) ↔ (error_kind error ≡ OutOfMemory) };

    fn from(error: io::Error) -> FolderFault {
        match error.kind() {
            ErrorKind::OutOfMemory => FolderFault::Memory,
            _ => FolderFault::Failed,
        }
    }
}
