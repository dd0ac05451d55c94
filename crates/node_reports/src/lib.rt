//! What the resources of a plant are asked to do, what each does while it runs, as its journal, and the report on a
//! run. It is made of the journals, the book and the commands, if they agree.
#![tactic(auto)]

mod act;
mod cause;
mod collector;
mod command;
mod comparing;
mod conditions;
mod incarnations;
mod journal;
mod journals;
mod node_fault;
mod node_faults;
mod opening;
mod plant_book;
mod report;
mod run_fault;
mod station;
mod step;
mod steps;
mod tickets;

pub use act::Act;
pub use cause::Cause;
pub use collector::{agreed, collect};
pub use command::Command;
pub use comparing::are_equal;
pub use conditions::{are_for_plant, are_numbered};
pub use journal::Journal;
pub use journals::Journals;
pub use node_fault::NodeFault;
pub use node_faults::NodeFaults;
pub use opening::Opening;
pub use plant_book::PlantBook;
pub use report::Report;
pub use run_fault::RunFault;
pub use station::{PendingEvaluation, Station};
pub use step::Step;
pub use steps::Steps;
pub use tickets::Tickets;
