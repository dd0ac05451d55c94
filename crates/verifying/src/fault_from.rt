ghost use Rattle.std.specs.Prelude.{◌≡◌};

use crate::verify_fault::VerifyFault;
use std::alloc::{AllocError, AllocFailed};
use text_commands::TextCommandFault;
use text_lines::WriteFault;

impl From<AllocError> for VerifyFault {
    ghost use Rattle.verifying.specs.Giving.{no_memory};

    ghost from_gives = { λ _ fault. fault ≡ no_memory };

    fn from(_fault: AllocError) -> VerifyFault {
        VerifyFault::Command(TextCommandFault::Memory)
    }
}

impl<T: Drop> From<AllocFailed<T>> for VerifyFault {
    ghost use Rattle.verifying.specs.Giving.{no_memory};

    ghost from_gives = { λ _ fault. fault ≡ no_memory };

    fn from(_fault: AllocFailed<T>) -> VerifyFault {
        VerifyFault::Command(TextCommandFault::Memory)
    }
}

impl From<WriteFault> for VerifyFault {
    ghost use Rattle.verifying.specs.Giving.{no_output};

    ghost from_gives = { λ _ fault. fault ≡ no_output };

    fn from(_fault: WriteFault) -> VerifyFault {
        VerifyFault::Command(TextCommandFault::Write)
    }
}

impl From<TextCommandFault> for VerifyFault {
    ghost use Rattle.verifying.specs.declared.verify_fault.VerifyFault.TheVariants.{Command};

    ghost from_gives = { λ found fault. fault ≡ Command found };

    fn from(fault: TextCommandFault) -> VerifyFault {
        VerifyFault::Command(fault)
    }
}
