//! A node between its field and its neighbours: each of its inputs says what it may, evaluations see what the field is, and a
//! node with a cycle makes them by itself.
#![tactic(auto)]

mod field_node;
mod laws;

pub use field_node::FieldNode;
pub use laws::neighbours_ask_nothing;
