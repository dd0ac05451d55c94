use evaluation::InputFault;
use std::alloc::AllocError;
use text_lines::WriteFault;

/// Why a line isn't done.
#[derive(Clone, Copy)]
pub enum LineFault {
    /// It is no event, no comment and not blank.
    Syntax,
    /// What its event did can't be written.
    Write,
    /// There was no memory left.
    Memory,
}

impl From<InputFault> for LineFault {
    ghost use Rattle.std.specs.Prelude.{◌≡◌, ◌≢◌};
    ghost use Rattle.evaluation.specs.declared.input_fault.InputFault.TheVariants as input;
    ghost use Rattle.world.specs.declared.line_fault.LineFault.TheVariants.{Syntax, Write};

    ghost from_gives = { λ found fault. (fault ≢ Write) × (fault ≡ Syntax → found ≢ input.Memory) × (found ≢ input.Memory → fault ≡ Syntax) };

    fn from(fault: InputFault) -> LineFault {
        match fault {
            InputFault::Memory => LineFault::Memory,
            _ => LineFault::Syntax,
        }
    }
}

impl From<AllocError> for LineFault {
    ghost use Rattle.std.specs.Prelude.{◌≡◌};
    ghost use Rattle.world.specs.declared.line_fault.LineFault.TheVariants.{Memory};

    ghost from_gives = { λ _ fault. fault ≡ Memory };

    fn from(_fault: AllocError) -> LineFault {
        LineFault::Memory
    }
}

impl From<WriteFault> for LineFault {
    ghost use Rattle.std.specs.Prelude.{◌≡◌};
    ghost use Rattle.world.specs.declared.line_fault.LineFault.TheVariants.{Write};

    ghost from_gives = { λ _ fault. fault ≡ Write };

    fn from(_fault: WriteFault) -> LineFault {
        LineFault::Write
    }
}
