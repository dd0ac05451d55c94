//! Schedules done line by line: events, and EXPECT lines, which ask what tasks gave last.
#![tactic(auto)]

mod answer;
mod answer_lines;
mod answering;
mod expectation;
mod finding;
mod laws;
mod lines_tested;
mod live_fault;
mod output_names;
mod restarted;
mod tested;
mod testing;
mod values;

pub use answer::Answer;
pub use expectation::Expectation;
pub use laws::untested_runs;
pub use lines_tested::test_in_turns;
pub use live_fault::LiveFault;
pub use tested::Tested;
pub use testing::test_schedule;
