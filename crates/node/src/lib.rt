//! The run of commands in threads, one for each resource of a plant, with its gate and its keepers; and all that a
//! caller of it needs.
#![tactic(auto)]

mod clock_gate;
mod free_gate;
mod gate;
mod laws;
mod out_of_turns;
mod paced_gate;
mod running;
mod threads;

pub use clock_gate::ClockGate;
pub use free_gate::FreeGate;
pub use gate::Gate;
pub use keepers::{Keeper, KeeperFault, MemoryKeeper};
pub use laws::runs_rise;
pub use node_reports::{
    Act, Cause, Command, Journal, Journals, NodeFault, NodeFaults, Opening, Report, RunFault, Step,
    Steps, Tickets, are_for_plant, are_numbered,
};
pub use out_of_turns::OutOfTurns;
pub use paced_gate::PacedGate;
pub use running::{run_threads, run_with_keepers};
pub use threads::{Outcome, run_all};
