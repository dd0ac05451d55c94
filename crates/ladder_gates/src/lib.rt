//! A scan of a ladder with signals in the place of values.
#![tactic(auto)]

mod box_stores;
mod circuits_encoded;
mod coil_stores;
mod steps_encoded;

pub use circuits_encoded::encode_scan;
pub use steps_encoded::encode_steps;
