use crate::notes::NoteFault;
use keepers::KeeperFault;
use std::alloc::{AllocError, AllocFailed};
use thiserror::Error;

/// Why a node ends without an answer.
#[derive(Clone, Copy, Debug, PartialEq, Eq, Error)]
pub enum NodeStop {
    /// Its keeper didn't raise the incarnation at the start, or didn't tell or keep retained variables.
    #[error("{0}")]
    Keeper(KeeperFault),
    /// What it was to do isn't noted, or not on the disk.
    #[error("the journal can't be written")]
    Note,
    /// There was no memory left.
    #[error("there is no memory left")]
    Memory,
}

impl From<AllocError> for NodeStop {
    ghost use Rattle.std.specs.Prelude.{◌≡◌};
    ghost use Rattle.live_node.specs.declared.node_stop.NodeStop.TheVariants.{Memory};

    ghost from_gives = { λ _ fault. fault ≡ Memory };

    fn from(_fault: AllocError) -> NodeStop {
        NodeStop::Memory
    }
}

impl<T: Drop> From<AllocFailed<T>> for NodeStop {
    ghost use Rattle.std.specs.Prelude.{◌≡◌};
    ghost use Rattle.live_node.specs.declared.node_stop.NodeStop.TheVariants.{Memory};

    ghost from_gives = { λ _ fault. fault ≡ Memory };

    fn from(_fault: AllocFailed<T>) -> NodeStop {
        NodeStop::Memory
    }
}

impl From<NoteFault> for NodeStop {
    ghost use Rattle.std.specs.Prelude.{◌≡◌};
    ghost use Rattle.live_node.specs.declared.node_stop.NodeStop.TheVariants.{Note};

    ghost from_gives = { λ _ fault. fault ≡ Note };

    fn from(_fault: NoteFault) -> NodeStop {
        NodeStop::Note
    }
}

impl From<KeeperFault> for NodeStop {
    ghost use Rattle.std.specs.Prelude.{◌≡◌};
    ghost use Rattle.live_node.specs.Steps.Answering.{stop_for};

    ghost from_gives = { λ fault stop. stop ≡ stop_for fault };

    fn from(fault: KeeperFault) -> NodeStop {
        match fault {
            KeeperFault::Memory => NodeStop::Memory,
            _ => NodeStop::Keeper(fault),
        }
    }
}
