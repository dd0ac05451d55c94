/// The status after a text is refused.
pub(crate) const TEXT_REFUSED: u8 = 1;

/// The status after a word is refused.
pub const WORD_REFUSED: u8 = 2;

/// The status after a file can't be read, the output can't be written, the threads can't be run or something went wrong
/// in them, or memory is refused.
pub const FAILED: u8 = 3;

/// The status after all was done, help and the version among it.
pub(crate) const DONE: u8 = 0;

/// The status after a variable or an output isn't what a word expects.
pub(crate) const DIFFERS: u8 = 4;

/// The status after a claim fails.
pub(crate) const CLAIM_FAILS: u8 = 4;

/// The status after no claim fails, and one is undecided.
pub(crate) const UNDECIDED: u8 = 5;
