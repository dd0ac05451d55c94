ghost use Rattle.std.specs.Prelude.{◌≡◌};

use plant_grammar::{GrammarFault, GrammarFaultKind};
use std::alloc::{AllocError, AllocFailed};

/// Why the source of a bound input is refused, with its line.
#[derive(Clone, Copy)]
pub enum SourceFault {
    /// A name that isn't declared where it is sought.
    Unknown(u64),
    /// Values of another kind than the input's.
    WrongKind(u64),
    /// There was no memory left.
    Memory,
}

impl From<AllocError> for SourceFault {
    ghost use Rattle.plant.specs.declared.sources.source_fault.SourceFault.TheVariants.{Memory};

    ghost from_gives = { λ _ fault. fault ≡ Memory };

    fn from(_fault: AllocError) -> SourceFault {
        SourceFault::Memory
    }
}

impl<T: Drop> From<AllocFailed<T>> for SourceFault {
    ghost use Rattle.plant.specs.declared.sources.source_fault.SourceFault.TheVariants.{Memory};

    ghost from_gives = { λ _ fault. fault ≡ Memory };

    fn from(_fault: AllocFailed<T>) -> SourceFault {
        SourceFault::Memory
    }
}

impl From<SourceFault> for GrammarFault {
    ghost use Rattle.plant.specs.Steps.SourceFaults.{word_fault};

    ghost from_gives = { λ found fault. fault ≡ word_fault found };

    fn from(fault: SourceFault) -> GrammarFault {
        match fault {
            SourceFault::Unknown(line) => GrammarFault::at(GrammarFaultKind::UnknownName, line),
            SourceFault::WrongKind(line) => GrammarFault::at(GrammarFaultKind::WrongKind, line),
            SourceFault::Memory => GrammarFault::at(GrammarFaultKind::Memory, 0),
        }
    }
}
