/// The faults that a single place can have.
#[derive(Clone, Copy)]
pub enum PlaceFault {
    BadMark,
    Crossing,
    NoSource,
}
