//! Networks in order, by where they meet the left rail.

pub mod part;
pub mod ranks;
pub mod split;
