ghost use Rattle.std.specs.Prelude.{◌≡◌};

use crate::text_output::WriteFault;
use std::alloc::AllocError;

/// Why a text that is made and written some at a time didn't go out whole.
#[derive(Clone, Copy, Debug, PartialEq, Eq)]
pub enum SendFault {
    /// The writer refused to take all of it.
    Write,
    /// Memory was refused.
    Memory,
}

impl From<WriteFault> for SendFault {
    ghost use Rattle.text_lines.specs.declared.send_fault.SendFault.TheVariants.{Write};

    ghost from_gives = { λ _ fault. fault ≡ Write };

    fn from(_fault: WriteFault) -> SendFault {
        SendFault::Write
    }
}

impl From<AllocError> for SendFault {
    ghost use Rattle.text_lines.specs.declared.send_fault.SendFault.TheVariants.{Memory};

    ghost from_gives = { λ _ fault. fault ≡ Memory };

    fn from(_fault: AllocError) -> SendFault {
        SendFault::Memory
    }
}
