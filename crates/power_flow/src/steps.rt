//! A network as steps by column, and the circuits of a ladder.

pub mod circuit;
pub mod circuits;
pub mod edges;
pub mod fused;
pub mod lone_rung;
pub mod room;
pub mod row_ends;
pub mod rows;
pub mod steps;
