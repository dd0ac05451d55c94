use crate::item::Item;

/// Where a line stands.
#[derive(Clone, Copy, Debug, PartialEq, Eq)]
pub struct Place {
    /// The file's place among those given, counted from 0.
    pub file: usize,
    /// The number of the line, counted from 1.
    pub line: usize,
}

/// A line that was done, or was to be done next.
#[derive(Drop)]
pub struct Line {
    pub place: Place,
    pub item: Item,
}
