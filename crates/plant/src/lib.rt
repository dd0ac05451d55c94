//! Plants: programs with drawn ladders, resources with their tasks, what feeds what, and when tasks are due.
#![tactic(auto)]

mod body_faults;
mod drawn;
mod find;
mod ladder_laws;
mod laws;
mod named;
mod planning;
mod plant;
mod plant_fault;
mod plant_resource;
mod program_type;
mod read;
mod sources;
mod task;

pub use ladder_laws::program_has_one_ladder;
pub use laws::{
    counts_are_small, names_are_apart, one_plant, one_plant_of_tree, one_program, one_tree,
};
pub use planning::plan;
pub use plant::Plant;
pub use plant_fault::{BodyFault, PlantFault, PlantFaultKind};
pub use program_type::ProgramType;
pub use read::read_program;
pub use task::Task;
pub use task_codes::{Binding, Due, PlanFault, Source, TaskCode, TaskRef};
pub use words::{Address, Space};
