use crate::node_stop::NodeStop;
use std::alloc::AllocError;
use text_lines::{ReadFault, WriteFault};
use thiserror::Error;

/// Why a node ends before the end of its lines.
#[derive(Clone, Copy, Debug, PartialEq, Eq, Error)]
pub enum LiveStop {
    /// It didn't answer a line, or didn't begin.
    #[error("{0}")]
    Node(NodeStop),
    /// The next line can't be read.
    #[error("standard input can't be read")]
    Read,
    /// An answer can't be written.
    #[error("the output can't be written")]
    Write,
    /// There was no memory left to read a line.
    #[error("there is no memory left")]
    Memory,
}

impl From<NodeStop> for LiveStop {
    ghost use Rattle.std.specs.Prelude.{◌≡◌};
    ghost use Rattle.live_node.specs.declared.live_stop.LiveStop.TheVariants.{Node};

    ghost from_gives = { λ stop fault. fault ≡ Node stop };

    fn from(stop: NodeStop) -> LiveStop {
        LiveStop::Node(stop)
    }
}

impl From<WriteFault> for LiveStop {
    ghost use Rattle.std.specs.Prelude.{◌≡◌};
    ghost use Rattle.live_node.specs.declared.live_stop.LiveStop.TheVariants.{Write};

    ghost from_gives = { λ _ fault. fault ≡ Write };

    fn from(_fault: WriteFault) -> LiveStop {
        LiveStop::Write
    }
}

impl From<ReadFault> for LiveStop {
    ghost use Rattle.std.specs.Prelude.{◌≡◌};
    ghost use Rattle.live_node.specs.Steps.Answering.{stop_of};

    ghost from_gives = { λ found stop. stop ≡ stop_of found };

    fn from(fault: ReadFault) -> LiveStop {
        match fault {
            ReadFault::Read => LiveStop::Read,
            ReadFault::Memory => LiveStop::Memory,
        }
    }
}

impl From<AllocError> for LiveStop {
    ghost use Rattle.std.specs.Prelude.{◌≡◌};
    ghost use Rattle.live_node.specs.declared.live_stop.LiveStop.TheVariants.{Memory};

    ghost from_gives = { λ _ fault. fault ≡ Memory };

    fn from(_fault: AllocError) -> LiveStop {
        LiveStop::Memory
    }
}
