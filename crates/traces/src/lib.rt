//! Traces: variables with their values at each of some moments, as a value change dump and as a timing diagram. Of a
//! plant they are the outputs of its tasks, after each event of a schedule or each command of a plan.
#![tactic(auto)]

mod diagram;
mod diagram_parts;
mod escaped;
mod evaluated_moments;
mod label;
mod laws;
mod output_texts;
mod outputs;
mod scale;
mod segments;
mod texts;
mod times;
mod track;
mod value_changes;

pub use laws::{dump_reads_back, each_times, names_are_words, planned_times};
pub use output_texts::{event_texts, planned_texts};
pub use texts::{TraceTexts, Wanted, trace_texts};
pub use times::Times;
pub use track::{Scope, Track};
