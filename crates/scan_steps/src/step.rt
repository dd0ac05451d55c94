ghost use Rattle.std.specs.Prelude.{◌≡◌};

use crate::bound_contact::{BoundContact, VariableContact};
use crate::series::Series;
use crate::variable_pair::{PairPlaces, PairRows};
use drawings::CoilKind;

/// A coil with its name bound.
#[derive(Clone, Copy)]
pub struct BoundCoil {
    pub kind: CoilKind,
    /// The place of its variable.
    pub place: Option<usize>,
    /// The number of its memory among those of the network.
    pub memory: usize,
}

/// What a scan does at a place of a network, in at most 16 bytes. Rows are counted from the network's topmost row.
#[derive(Drop)]
pub enum Step {
    /// What begins in this row follows the left rail: its state is ON.
    Rail(u8),
    /// Nothing leads to what begins in this row: its state is OFF.
    Off(u8),
    /// The rows of an upright, from its topmost to its lowest: where any is ON, all are.
    Upright(u8, u8),
    /// Nothing leads to this row: its state is OFF; and then the rows of an upright are joined, from its topmost to its lowest.
    OffUpright(u8, u8, u8),
    /// Nothing leads to the row below this one, and an upright joins both: the row below takes the state of this one.
    Down(u8),
    /// Nothing leads to this row, and an upright joins it and the row below: it takes the state of that one.
    Up(u8),
    /// State goes on behind a contact that conducts.
    Contact(BoundContact),
    /// A contact of a variable follows the left rail: the state of its row is ON if it conducts.
    RailContact(VariableContact),
    /// State goes on behind each of two contacts of variables that conducts.
    Pair(PairRows, PairPlaces),
    /// The rows from the first to the second contact of a pair are joined, and then state goes on behind each that conducts.
    JoinedPair(PairRows, PairPlaces),
    /// Nothing leads to the row below this one; this row and the next two are joined, and then state goes on behind each of two plain contacts that conducts, in this row and in the third.
    PairOver(u8, PairPlaces),
    /// A contact follows the left rail in this row, and the others one behind the other; the state behind them is the left link of the coil with this number.
    Rung(u8, u32, Series),
    /// The state of this row is the left link of the coil with this number.
    Coil(u8, u32),
    /// The box with this number is stepped, once the states on its left are known.
    Box(u32),
    /// The box with this number is stepped, and then the state of a row is the left link of the coil with the last number.
    BoxCoil(u32, u8, u32),
}

const _: () = prove!(size_of::<Step>() == 16);
