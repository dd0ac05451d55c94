//! Which networks of a ladder a question about some of its variables needs, and the ladder of these alone.
#![tactic(auto)]

mod blank_page;
mod closed;
mod count_limit;
mod counts;
mod laws;
mod limits;
mod needs;
mod places;
mod same_networks;
mod slice;
mod touched;

pub use closed::is_closed;
pub use count_limit::CountLimit;
pub use laws::{counts_follow, slices_follow};
pub use limits::count_limits;
pub use needs::Needs;
pub use slice::{Slice, slice_of};
