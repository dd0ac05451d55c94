//! What holds of entries when they are made again.

ghost use Rattle.world.specs.BookLaws.{RunsCouldBeMade, RunsReplay, FittingEntriesReplay};

/// Each evaluation of a run could have been made after those before it.
pub fn runs_could_be_made()
    ensures { RunsCouldBeMade }
{}

/// Events that make the entries of a run again are events of that run.
pub fn runs_replay()
    ensures { RunsReplay }
{}

/// Where each entry fits those before it, the events of these entries make them again.
pub fn fitting_entries_replay()
    ensures { FittingEntriesReplay }
{}
