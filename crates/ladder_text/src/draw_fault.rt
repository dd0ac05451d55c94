//! The faults of a text that is no drawing.

use thiserror::Error;

/// The kinds of faults of a drawing, in the order in which they are sought.
#[derive(Clone, Copy, Debug, PartialEq, Eq)]
pub enum DrawFaultKind {
    /// A character outside 32 to 126; tabs too.
    NotAscii,
    /// Line 2,001, or column 241 of a line; blanks at the end of a line don't count.
    TooLarge,
    /// Nothing is drawn, or the leftmost column has another character than `|` and `+`.
    NoLeftRail,
    /// The top left corner of a box that isn't closed or has other pins than it may, or shares a place with one before it.
    BadBox,
    /// A character without a meaning, or a line that ends at a box where there is no pin.
    BadMark,
    /// A `|` that touches a line or a box, or that ends its upright.
    Crossing,
    /// A line, or an upright at its topmost place, that state enters from nowhere.
    NoSource,
    /// A symbol or box without a word above it.
    NameMissing,
    /// A word of another form than is wanted there, or one that names nothing, two things, or a thing that has a name.
    StrayName,
    /// There was no memory left; line and column are 0.
    Memory,
}

/// Why a text is no drawing, and where: the first fault of the first kind that there is.
#[derive(Clone, Copy, Debug, PartialEq, Eq, Error)]
#[error("{line}:{column}: {kind:?}")]
pub struct DrawFault {
    pub kind: DrawFaultKind,
    /// The number of the line, counted on from that of the first.
    pub line: u64,
    /// The column, from 1 on.
    pub column: usize,
}
