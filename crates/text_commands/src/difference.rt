use std_blocks::Value;

/// What a variable is after a scan, of which another value is expected.
#[derive(Debug, Drop)]
pub struct Difference {
    /// The name as it was declared.
    pub name: String,
    /// The scan; scans count from 1.
    pub scan: usize,
    /// What the variable is.
    pub value: Value,
    /// What it is expected to be.
    pub expected: Value,
}
