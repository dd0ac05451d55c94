ghost use Rattle.std.specs.Prelude.{◌≡◌};

use crate::text_fault::TextFault;
use crate::word_fault::WordFault;
use ladder_text::{DrawFault, DrawFaultKind};
use name_faults::{BindFault, BindKind};
use network::{GraphFault, GraphFaultKind};
use plant::{PlantFault, PlantFaultKind};
use std::alloc::{AllocError, AllocFailed};
use task_codes::PlanFault;
use text_lines::{SendFault, WriteFault};
use thiserror::Error;

/// Why a command that needs one text ends without its answer.
#[derive(Clone, Copy, Debug, PartialEq, Eq, Error)]
pub enum TextCommandFault {
    /// A text is refused by the crate that reads it.
    #[error(transparent)]
    Text(TextFault),
    /// A word of the command line is refused.
    #[error(transparent)]
    Word(WordFault),
    /// The output can't be written.
    #[error("the output can't be written")]
    Write,
    /// Memory was refused.
    #[error("there is no memory left")]
    Memory,
}

impl From<AllocError> for TextCommandFault {
    ghost use Rattle.text_commands.specs.declared.text_command_fault.TextCommandFault.TheVariants.{Memory};

    ghost from_gives = { λ _ fault. fault ≡ Memory };

    fn from(_fault: AllocError) -> TextCommandFault {
        TextCommandFault::Memory
    }
}

impl<T: Drop> From<AllocFailed<T>> for TextCommandFault {
    ghost use Rattle.text_commands.specs.declared.text_command_fault.TextCommandFault.TheVariants.{Memory};

    ghost from_gives = { λ _ fault. fault ≡ Memory };

    fn from(_fault: AllocFailed<T>) -> TextCommandFault {
        TextCommandFault::Memory
    }
}

impl From<WriteFault> for TextCommandFault {
    ghost use Rattle.text_commands.specs.declared.text_command_fault.TextCommandFault.TheVariants.{Write};

    ghost from_gives = { λ _ fault. fault ≡ Write };

    fn from(_fault: WriteFault) -> TextCommandFault {
        TextCommandFault::Write
    }
}

impl From<SendFault> for TextCommandFault {
    ghost use Rattle.text_commands.specs.Giving.{sending_fault};

    ghost from_gives = { λ found fault. fault ≡ sending_fault found };

    fn from(fault: SendFault) -> TextCommandFault {
        match fault {
            SendFault::Write => TextCommandFault::Write,
            SendFault::Memory => TextCommandFault::Memory,
        }
    }
}

impl From<DrawFault> for TextCommandFault {
    ghost use Rattle.text_commands.specs.Giving.{GivenFor};
    ghost use Rattle.ladder_text.specs.declared.draw_fault.DrawFaultKind.TheVariants as draw;
    ghost use Rattle.text_commands.specs.declared.text_fault.TextFault.TheVariants.{Draw};

    ghost from_gives = { λ found fault. GivenFor (found.kind ≡ draw.Memory) (Draw found) fault };

    fn from(fault: DrawFault) -> TextCommandFault {
        match fault.kind {
            DrawFaultKind::Memory => TextCommandFault::Memory,
            _ => TextCommandFault::Text(TextFault::Draw(fault)),
        }
    }
}

impl From<GraphFault> for TextCommandFault {
    ghost use Rattle.text_commands.specs.Giving.{GivenFor};
    ghost use Rattle.network.specs.declared.fault.GraphFaultKind.TheVariants as graph;
    ghost use Rattle.text_commands.specs.declared.text_fault.TextFault.TheVariants.{Graph};

    ghost from_gives = { λ found fault. GivenFor (found.kind ≡ graph.Memory) (Graph found) fault };

    fn from(fault: GraphFault) -> TextCommandFault {
        match fault.kind {
            GraphFaultKind::Memory => TextCommandFault::Memory,
            _ => TextCommandFault::Text(TextFault::Graph(fault)),
        }
    }
}

impl From<BindFault> for TextCommandFault {
    ghost use Rattle.text_commands.specs.Giving.{GivenFor};
    ghost use Rattle.name_faults.specs.declared.bind_fault.BindKind.TheVariants as bind;
    ghost use Rattle.text_commands.specs.declared.text_fault.TextFault.TheVariants.{Bind};

    ghost from_gives = { λ found fault. GivenFor (found.kind ≡ bind.Memory) (Bind found) fault };

    fn from(fault: BindFault) -> TextCommandFault {
        match fault.kind {
            BindKind::Memory => TextCommandFault::Memory,
            _ => TextCommandFault::Text(TextFault::Bind(fault)),
        }
    }
}

impl From<PlantFault> for TextCommandFault {
    ghost use Rattle.text_commands.specs.Giving.{GivenFor};
    ghost use Rattle.plant.specs.declared.plant_fault.PlantFaultKind.TheVariants as plant;
    ghost use Rattle.text_commands.specs.declared.text_fault.TextFault.TheVariants.{Plant};

    ghost from_gives = { λ found fault. GivenFor (found.kind ≡ plant.Memory) (Plant found) fault };

    fn from(fault: PlantFault) -> TextCommandFault {
        match fault.kind {
            PlantFaultKind::Memory => TextCommandFault::Memory,
            _ => TextCommandFault::Text(TextFault::Plant(fault)),
        }
    }
}

impl From<PlanFault> for TextCommandFault {
    ghost use Rattle.text_commands.specs.Giving.{GivenFor};
    ghost use Rattle.task_codes.specs.declared.plan_fault.PlanFault.TheVariants as plan;
    ghost use Rattle.text_commands.specs.declared.text_fault.TextFault.TheVariants.{TooLong};

    ghost from_gives = { λ found fault. GivenFor (found ≡ plan.Memory) TooLong fault };

    fn from(fault: PlanFault) -> TextCommandFault {
        match fault {
            PlanFault::Memory => TextCommandFault::Memory,
            PlanFault::TooLong => TextCommandFault::Text(TextFault::TooLong),
        }
    }
}
