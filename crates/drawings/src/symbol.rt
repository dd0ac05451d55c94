use words::Text;

/// A contact or a coil, by the first of its three places.
#[derive(Debug, Drop)]
pub struct Symbol<Kind> {
    /// The row, from 1 on.
    pub row: usize,
    /// The column of the first place, from 1 on.
    pub column: usize,
    pub kind: Kind,
    /// The word above it as it is drawn: an identifier, or two joined by a dot.
    pub name: Text,
}
