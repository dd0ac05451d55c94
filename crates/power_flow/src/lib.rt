//! What a drawing does: its names bound, its states, and one scan of its networks.
#![tactic(auto)]

mod binding;
mod ladder;
mod laws;
mod scan;
mod showing;
mod snapshot;
mod state;
mod steps;

pub use declared_names::{Declarations, DeclareFault, Declared, Kind};
pub use ladder::Ladder;
pub use laws::{fitting_states_are_equal, kinds_are_kept, one_ladder, one_scan, steps_are_meant};
pub use name_faults::{BindFault, BindKind, Guess};
pub use snapshot::Snapshot;
pub use state::State;
pub use steps::circuit::Circuit;
