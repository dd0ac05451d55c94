//! Mistakes that people make, told by name: what is told of a refused text behind the sentence on the kind of its fault.
#![tactic(auto)]

mod emptied;
mod further;
mod more;
mod plant_place;

pub use further::further_faults;
pub use more::more_with;
