//! What one resource of a plant keeps, takes and makes, where what others made comes as evaluations, or as messages
//! alone.
#![tactic(auto)]

mod accepted;
mod core_fault;
mod eval_fault;
mod known;
mod last;
mod message_core;
mod opening;
mod resource_core;
mod restart_fault;
mod takes;
mod usable;

pub use accepted::Accepted;
pub use core_fault::CoreFault;
pub use eval_fault::EvalFault;
pub use last::Last;
pub use message_core::MessageCore;
pub use opening::{initial_opening, is_opening};
pub use resource_core::Core;
pub use restart_fault::RestartFault;
