//! A second drawing, whose rungs stand behind those of a first one.

mod beside;
pub(crate) mod drawn_graph;
mod joined;
mod laws;
mod names;
pub(crate) mod page;
mod reading;

pub use joined::{JoinedLadder, read_both};
pub use laws::second_changes_nothing;
