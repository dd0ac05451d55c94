//! A scan: one pass over the steps of a network, and then its stores.

pub mod boxes;
pub mod scan;
