//! The code of a task, what names it, and when tasks are due: its programs with their ladders, what fills their inputs,
//! and what the task gives.
#![tactic(auto)]

mod binding;
mod due;
mod laws;
mod plan_fault;
mod planning;
mod program_instance;
mod retained_variable;
mod same_code;
mod slot;
mod task_code;
mod task_output;
mod task_ref;
mod timing;

pub use binding::{Binding, Source};
pub use due::Due;
pub use laws::one_plan;
pub use plan_fault::PlanFault;
pub use planning::plan;
pub use program_instance::ProgramInstance;
pub use retained_variable::RetainedVariable;
pub use task_code::TaskCode;
pub use task_output::TaskOutput;
pub use task_ref::TaskRef;
pub use timing::Timing;
