//! A drawing of ladders as a value: its size, the mark at each place, and its contacts, coils and boxes with their names.
//!
//! Rows and columns count from 1. `ladder_text` reads drawings; what stands on them needs no text.
#![tactic(auto)]

mod coil;
mod contact;
mod drawing;
mod drawn_box;
mod mark;
mod mark_row;
mod place;
mod symbol;

pub use coil::{Coil, CoilKind};
pub use contact::{Contact, ContactKind};
pub use drawing::Drawing;
pub use drawn_box::{DrawnBox, DrawnPin, Operand, Pins, Side};
pub use mark::Mark;
pub use mark_row::MarkRow;
pub use place::Place;
pub use symbol::Symbol;
