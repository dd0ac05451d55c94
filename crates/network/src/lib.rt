//! What is drawn, network by network.
#![tactic(auto)]

mod element;
mod element_box;
mod fault;
mod graph;
mod joining;
mod listing;
mod networks;
mod order;
mod places;
mod same_elements;
mod seeking;

pub use element::Element;
pub use element_box::ElementBox;
pub use fault::{GraphFault, GraphFaultKind};
pub use graph::Graph;
pub use networks::Network;
pub use places::rails::Rails;
pub use same_elements::{are_same_boxes, are_same_elements, are_same_places};
