use crate::expectation::Expectation;
use std_blocks::Value;

/// What an expectation found, and whether that is what it expects.
#[derive(Clone, Copy, Debug, PartialEq, Eq)]
pub struct Answer {
    pub expectation: Expectation,
    pub found: Value,
    pub is_met: bool,
}
