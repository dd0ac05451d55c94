ghost use Rattle.std.specs.Prelude.{◌≡◌};

use crate::verify_plant_fault::VerifyPlantFault;
use std::alloc::{AllocError, AllocFailed};
use text_commands::TextCommandFault;
use text_lines::WriteFault;

impl From<AllocError> for VerifyPlantFault {
    ghost use Rattle.verifying_plants.specs.Giving.{no_memory};

    ghost from_gives = { λ _ fault. fault ≡ no_memory };

    fn from(_fault: AllocError) -> VerifyPlantFault {
        VerifyPlantFault::Command(TextCommandFault::Memory)
    }
}

impl<T: Drop> From<AllocFailed<T>> for VerifyPlantFault {
    ghost use Rattle.verifying_plants.specs.Giving.{no_memory};

    ghost from_gives = { λ _ fault. fault ≡ no_memory };

    fn from(_fault: AllocFailed<T>) -> VerifyPlantFault {
        VerifyPlantFault::Command(TextCommandFault::Memory)
    }
}

impl From<WriteFault> for VerifyPlantFault {
    ghost use Rattle.verifying_plants.specs.Giving.{no_output};

    ghost from_gives = { λ _ fault. fault ≡ no_output };

    fn from(_fault: WriteFault) -> VerifyPlantFault {
        VerifyPlantFault::Command(TextCommandFault::Write)
    }
}

impl From<TextCommandFault> for VerifyPlantFault {
    ghost use Rattle.verifying_plants.specs.declared.verify_plant_fault.VerifyPlantFault.TheVariants.{Command};

    ghost from_gives = { λ found fault. fault ≡ Command found };

    fn from(fault: TextCommandFault) -> VerifyPlantFault {
        VerifyPlantFault::Command(fault)
    }
}
