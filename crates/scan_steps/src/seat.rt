/// Where a value or a block is found.
#[derive(Clone, Copy)]
pub enum Seat {
    /// A BOOL: at its own place.
    Bool,
    /// The INT of this number.
    Int(usize),
    /// The TIME of this number.
    Time(usize),
    /// The block of this number.
    Block(usize),
}
