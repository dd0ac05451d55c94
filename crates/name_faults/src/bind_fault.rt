use thiserror::Error;

/// The kinds of faults of names, in the order in which they are sought.
#[derive(Clone, Copy, Debug, PartialEq, Eq, PartialOrd, Ord)]
pub enum BindKind {
    /// A name, or the part before its dot, isn't declared.
    UnknownName,
    /// What is declared can't be used so.
    WrongKind,
    /// A coil or an output operand on an input.
    WritesInput,
    /// A pin that the block doesn't have, or that is drawn twice.
    UnknownPin,
    /// A block without a Boolean pin on one side.
    PinMissing,
    /// A number or a duration out of its range.
    LiteralOutOfRange,
    /// Memory ran out.
    Memory,
}

/// What is wrong with a name, and where. A lack of memory has line 0 and column 0.
#[derive(Clone, Copy, Debug, PartialEq, Eq, Error)]
#[error("{line}:{column}: {kind:?}")]
pub struct BindFault {
    pub kind: BindKind,
    /// The number of the line, counted on from that of the drawing's first.
    pub line: u64,
    /// The column, from 1 on.
    pub column: usize,
}
