use gates::{Gates, Signal};

/// State bits and what they become under a row of inputs.
#[derive(Drop)]
pub struct TransitionSystem {
    pub gates: Gates,
    /// The state bits: the inputs of the gates from number 0 on.
    pub state: Vec<Signal>,
    /// The inputs of a row: those of the numbers behind the state bits.
    pub inputs: Vec<Signal>,
    /// The state bits at first.
    pub first: Vec<bool>,
    /// What the state bits become.
    pub next: Vec<Signal>,
    /// What is given of each row.
    pub constraint: Signal,
    /// What is never to be.
    pub bad: Signal,
}
