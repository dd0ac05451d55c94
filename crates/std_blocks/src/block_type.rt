/// The standard function blocks. An edge of an input is seen between two steps.
#[derive(Clone, Copy, Debug, PartialEq, Eq)]
pub enum BlockType {
    /// A latch with S1, R and Q1, in which set is dominant.
    SR,
    /// A latch with S, R1 and Q1, in which reset is dominant.
    RS,
    /// A counter up: a rise of CU adds 1 to CV, R makes it 0, and Q tells whether it has come to PV.
    CTU,
    /// A counter down: a rise of CD takes 1 from CV, LD makes it PV, and Q tells whether it has come to 0.
    CTD,
    /// A counter up and down, with CU, CD, R, LD and PV; where both inputs rise CV stays.
    CTUD,
    /// A pulse: from a rise of IN on, Q is ON for PT.
    TP,
    /// An on delay: Q is ON once IN has been ON for PT.
    TON,
    /// An off delay: Q is OFF once IN has been OFF for PT.
    TOF,
}
