use network::Element;
use scan_steps::{BoundBox, BoundCoil, Rung, Step};

/// A network made ready for scans: its elements, and the steps of a scan through its columns.
#[derive(Drop)]
pub struct Circuit {
    pub elements: Vec<Element>,
    /// The same as its steps, if it is one rung with a plain coil.
    pub rung: Option<Rung>,
    /// How many rows it has, from its topmost to its lowest.
    pub rows: usize,
    /// By column, and in a column by row.
    pub steps: Vec<Step>,
    /// The coils among the elements, in their order.
    pub coils: Vec<BoundCoil>,
    /// The boxes among the elements, in their order.
    pub boxes: Vec<BoundBox>,
}
