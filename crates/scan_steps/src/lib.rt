//! What stands at declared names, and the steps of a scan: what each reads and what it leaves.
#![tactic(auto)]

mod bound_box;
mod bound_contact;
mod box_rows;
mod contact_rows;
mod digests;
mod joined_rows;
mod passing;
mod rung;
mod seat;
mod series;
mod slot;
mod slots;
mod source;
mod step;
mod value_lists;
mod variable_pair;

pub use bound_box::{BoundBox, BoundOutput};
pub use bound_contact::{BoundContact, VariableContact};
pub use digests::mix;
pub use passing::pass;
pub use rung::Rung;
pub use series::Series;
pub use slot::{Instance, Slot};
pub use slots::Slots;
pub use source::{Source, output_value};
pub use step::{BoundCoil, Step};
pub use variable_pair::{Negated, PairPlaces, PairRows, pair_of};
