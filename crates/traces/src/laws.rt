ghost use Rattle.traces.specs.Laws.{DumpReadsBack, EachTimes, NamesAreWords, PlannedTimes};

/// A reader of a value change dump finds its variables, and at each time their values.
pub fn dump_reads_back()
    ensures { DumpReadsBack }
{}

/// Each name of a program is a word that a dump can have as a name.
pub fn names_are_words()
    ensures { NamesAreWords }
{}

/// Equally long moments begin one after the other.
pub fn each_times()
    ensures { EachTimes }
{}

/// Those of a plan begin one after the other, or several at once.
pub fn planned_times()
    ensures { PlannedTimes }
{}
