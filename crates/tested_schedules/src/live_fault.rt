use thiserror::Error;

/// Why a schedule that is read line by line isn't done to its end.
#[derive(Clone, Copy, Debug, PartialEq, Eq, Error)]
pub enum LiveFault {
    /// This line, counted from 1, is no event, no comment and not blank.
    #[error("{line}: Syntax")]
    Syntax { line: u64 },
    /// This line, counted from 1, has more than 1,000,000 bytes.
    #[error("{line}: Syntax")]
    TooLong { line: u64 },
    /// The next line can't be read.
    #[error("Read")]
    Read,
    /// The lines can't be written.
    #[error("Write")]
    Write,
    /// There was no memory left.
    #[error("Memory")]
    Memory,
}
