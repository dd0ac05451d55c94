//! What the names of a network are bound to: the sources that are read, and the places at which it stores.

pub mod box_binding;
pub mod source;
