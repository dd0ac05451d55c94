ghost use Rattle.ladder_rows.specs.Laws.{AreBoxesWhole, AreRowsWithin, DoRunsEnd, IsFirstByRows};

/// A box ends within the rows and columns of its drawing, and has its pins between its top and its bottom.
pub fn boxes_are_whole()
    ensures { AreBoxesWhole }
{}

/// Rows of which no place is beyond the limits are within them.
pub fn rows_are_within()
    ensures { AreRowsWithin }
{}

/// A run ends where the next place fails or the limit is met.
pub fn runs_end()
    ensures { DoRunsEnd }
{}

/// A place that passes is the first one, where none above it and none before it in its row does.
pub fn first_is_by_rows()
    ensures { IsFirstByRows }
{}
