/// What is written of the scans of a drawing.
#[derive(Clone, Copy, Debug, PartialEq, Eq)]
pub enum Form {
    /// A line for each scan.
    Rows,
    /// A line for each scan, and behind it the drawing with what has power in it, in bold green if it is colored.
    Drawings { color: bool },
    /// A line for each variable.
    Chart,
}
