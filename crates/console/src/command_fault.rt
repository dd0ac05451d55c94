ghost use Rattle.std.specs.Prelude.{◌≡◌};

use node_reports::RunFault;
use std::alloc::{AllocError, AllocFailed};
use text_commands::{TextCommandFault, TextFault, WordFault};
use text_lines::{SendFault, WriteFault};
use thiserror::Error;

/// Why a command of the program ends without its answer.
#[derive(Clone, Copy, Debug, PartialEq, Eq, Error)]
pub enum CommandFault {
    /// A text is refused by the crate that reads it.
    #[error(transparent)]
    Text(TextFault),
    /// A word of the command line is refused.
    #[error(transparent)]
    Word(WordFault),
    /// The output can't be written.
    #[error("the output can't be written")]
    Write,
    /// The threads gave no report.
    #[error("the threads gave no report: {0}")]
    Run(RunFault),
    /// Memory was refused.
    #[error("there is no memory left")]
    Memory,
}

impl From<AllocError> for CommandFault {
    ghost use Rattle.console.specs.declared.command_fault.CommandFault.TheVariants.{Memory};

    ghost from_gives = { λ _ fault. fault ≡ Memory };

    fn from(_fault: AllocError) -> CommandFault {
        CommandFault::Memory
    }
}

impl<T: Drop> From<AllocFailed<T>> for CommandFault {
    ghost use Rattle.console.specs.declared.command_fault.CommandFault.TheVariants.{Memory};

    ghost from_gives = { λ _ fault. fault ≡ Memory };

    fn from(_fault: AllocFailed<T>) -> CommandFault {
        CommandFault::Memory
    }
}

impl From<WriteFault> for CommandFault {
    ghost use Rattle.console.specs.declared.command_fault.CommandFault.TheVariants.{Write};

    ghost from_gives = { λ _ fault. fault ≡ Write };

    fn from(_fault: WriteFault) -> CommandFault {
        CommandFault::Write
    }
}

impl From<SendFault> for CommandFault {
    ghost use Rattle.text_commands.specs.Giving.{sending_fault};
    ghost use Rattle.console.specs.Giving.{command_fault};

    ghost from_gives = { λ found fault. fault ≡ command_fault (sending_fault found) };

    fn from(fault: SendFault) -> CommandFault {
        match fault {
            SendFault::Write => CommandFault::Write,
            SendFault::Memory => CommandFault::Memory,
        }
    }
}

impl From<TextCommandFault> for CommandFault {
    ghost use Rattle.console.specs.Giving.{command_fault};

    ghost from_gives = { λ found fault. fault ≡ command_fault found };

    fn from(fault: TextCommandFault) -> CommandFault {
        match fault {
            TextCommandFault::Text(fault) => CommandFault::Text(fault),
            TextCommandFault::Word(fault) => CommandFault::Word(fault),
            TextCommandFault::Write => CommandFault::Write,
            TextCommandFault::Memory => CommandFault::Memory,
        }
    }
}

impl From<RunFault> for CommandFault {
    ghost use Rattle.console.specs.Giving.{GivenForRun};

    ghost from_gives = { GivenForRun };

    fn from(fault: RunFault) -> CommandFault {
        match fault {
            RunFault::Memory => CommandFault::Memory,
            _ => CommandFault::Run(fault),
        }
    }
}
