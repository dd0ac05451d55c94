//! What stands in a drawing or plant that is lawful, and most likely not meant.
#![tactic(auto)]

mod elements;
mod far_address;
mod mistyped;
mod names;
mod near;
mod never_read;
mod numbers;
mod of_drawing;
mod of_plant;
mod of_text;
mod overwritten;
mod presets;
mod scan_time;
mod small_name;
mod small_names;
mod unbound;
mod warning;

pub use far_address::FarAddress;
pub use of_drawing::{warnings_of_a_drawing, warnings_of_a_program};
pub use of_plant::{PlantWarnings, warnings_of_a_plant};
pub use of_text::warnings_of_a_text;
pub use scan_time::ScanTime;
pub use unbound::UnboundInput;
pub use warning::{Warning, WarningKind};
