/// What can be asked of a box at a place.
#[derive(Clone, Copy)]
pub enum BoxTest {
    /// It covers the place.
    Covers,
    /// The operand of a pin, or a dash on its way there, is at the place.
    Reaches,
    /// The place is on its right side, on the row of a right pin.
    RightPin,
    /// The place is directly right of it, on a row without a right pin.
    BlindLeft,
    /// The place is directly left of it, on a row without a left pin.
    BlindRight,
}
