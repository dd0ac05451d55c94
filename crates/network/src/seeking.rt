//! The first fault of the networks.

pub mod corners;
pub mod first_place;
pub mod found;
