//! Which elements have power in a scan, element by element: plain, and slower than a scan.

pub mod comings;
pub mod network_power;
pub mod scan_power;
pub mod uprights;
