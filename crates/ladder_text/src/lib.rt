//! Ladders drawn in characters, as IEC 61131-3 draws them:
//!
//! ```text
//! |  START      STOP     RUN
//! +--| |----+---|/|------( )
//! |  RUN    |
//! +--| |----+
//! ```
//!
//! [`ReadText`] reads a [`Drawing`] by `Drawing::read`, or answers the first fault of its text. A drawing gives its size,
//! the mark at each place, and its contacts, coils and boxes with their names. Rows and columns count from 1.
#![tactic(auto)]

mod draw_fault;
mod earlier;
mod names;
mod places;
mod read_drawing;
mod reading;
mod refusal;
mod symbols;

pub use draw_fault::{DrawFault, DrawFaultKind};
pub use drawings::{
    Coil, CoilKind, Contact, ContactKind, Drawing, DrawnBox, DrawnPin, Mark, Operand, Pins, Side,
};
pub use read_drawing::ReadText;
