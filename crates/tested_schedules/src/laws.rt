//! A law of the texts of schedules.

ghost use Rattle.tested_schedules.specs.Untested.{UntestedRuns};

/// Where no line is an EXPECT line, what is written is the text of the run of the lines' events, as `simulate` of `world`
/// writes it, and nothing is unmet.
pub fn untested_runs()
    ensures { UntestedRuns }
{}
