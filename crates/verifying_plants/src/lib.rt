//! What is asked of a plant by words, and the text that answers it: whether outputs are ever on together.
#![tactic(auto)]

mod claim_words;
mod fault_from;
mod output_names;
mod plant_command;
mod plant_question;
mod premise_texts;
mod range_words;
mod reached_tasks;
mod summary;
mod verdict_texts;
mod verify_plant_fault;
mod zero_words;

pub use plant_command::verify_plant_text;
pub use plant_question::PlantQuestion;
pub use verify_plant_fault::{NameFault, RangeFault, RangeFaultKind, VerifyPlantFault};
