//! The loop of a node that runs by itself: it makes the evaluations that its cycle asks for at what the clock reads, and
//! between them answers the lines that readers of its inputs hand in.
#![tactic(auto)]

mod channels;
mod ending;
mod live_source;
mod loop_stop;
mod looping;
mod reader;
mod running;
mod told;
mod turn_source;

pub use channels::{LoopEnds, ReaderEnd, ReaderEnds, connect};
pub use ending::Ending;
pub use live_source::LiveSource;
pub use loop_stop::LoopStop;
pub use looping::run_loop;
pub use reader::{read_field, read_input};
pub use running::{Alone, run_turns};
pub use told::Told;
pub use turn_source::{NoClock, TurnSource};
