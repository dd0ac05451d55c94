use crate::turn_source::NoClock;
use live_node::{LiveStop, NodeStop};
use std::alloc::AllocError;
use text_lines::{ReadFault, WriteFault};
use thiserror::Error;

/// Why a loop ends before its time.
#[derive(Clone, Copy, Debug, PartialEq, Eq, Error)]
pub enum LoopStop {
    /// The node stopped, a neighbours' line can't be read, or an answer can't be written.
    #[error("{0}")]
    Live(LiveStop),
    /// The clock can't be read.
    #[error("the clock can't be read")]
    Clock,
}

impl From<LiveStop> for LoopStop {
    ghost use Rattle.std.specs.Prelude.{◌≡◌};
    ghost use Rattle.node_loop.specs.declared.loop_stop.LoopStop.TheVariants.{Live};

    ghost from_gives = { λ found stop. stop ≡ Live found };

    fn from(stop: LiveStop) -> LoopStop {
        LoopStop::Live(stop)
    }
}

impl From<NodeStop> for LoopStop {
    ghost use Rattle.std.specs.Prelude.{◌≡◌};
    ghost use Rattle.live_node.specs.declared.live_stop.LiveStop.TheVariants.{Node};
    ghost use Rattle.node_loop.specs.declared.loop_stop.LoopStop.TheVariants.{Live};

    ghost from_gives = { λ found stop. stop ≡ Live (Node found) };

    fn from(stop: NodeStop) -> LoopStop {
        LoopStop::Live(LiveStop::Node(stop))
    }
}

impl From<WriteFault> for LoopStop {
    ghost use Rattle.std.specs.Prelude.{◌≡◌};
    ghost use Rattle.live_node.specs.declared.live_stop.LiveStop.TheVariants.{Write};
    ghost use Rattle.node_loop.specs.declared.loop_stop.LoopStop.TheVariants.{Live};

    ghost from_gives = { λ _ stop. stop ≡ Live Write };

    fn from(_fault: WriteFault) -> LoopStop {
        LoopStop::Live(LiveStop::Write)
    }
}

impl From<AllocError> for LoopStop {
    ghost use Rattle.std.specs.Prelude.{◌≡◌};
    ghost use Rattle.live_node.specs.declared.live_stop.LiveStop.TheVariants.{Node};
    ghost use Rattle.live_node.specs.declared.node_stop.NodeStop.TheVariants.{Memory};
    ghost use Rattle.node_loop.specs.declared.loop_stop.LoopStop.TheVariants.{Live};

    ghost from_gives = { λ _ stop. stop ≡ Live (Node Memory) };

    fn from(_fault: AllocError) -> LoopStop {
        LoopStop::Live(LiveStop::Node(NodeStop::Memory))
    }
}

impl From<NoClock> for LoopStop {
    ghost use Rattle.std.specs.Prelude.{◌≡◌};
    ghost use Rattle.node_loop.specs.declared.loop_stop.LoopStop.TheVariants.{Clock};

    ghost from_gives = { λ _ stop. stop ≡ Clock };

    fn from(_fault: NoClock) -> LoopStop {
        LoopStop::Clock
    }
}

impl From<ReadFault> for LoopStop {
    ghost use Rattle.std.specs.Prelude.{◌≡◌};
    ghost use Rattle.node_loop.specs.Stops.{stop_of};

    ghost from_gives = { λ found stop. stop ≡ stop_of found };

    fn from(fault: ReadFault) -> LoopStop {
        match fault {
            ReadFault::Read => LoopStop::Live(LiveStop::Read),
            ReadFault::Memory => LoopStop::Live(LiveStop::Memory),
        }
    }
}
