ghost use Rattle.book.specs.Laws.{TakesNeverFall};

/// Where each entry fits those before it, takes that aren't of nothing never fall, over all incarnations of a resource.
pub fn takes_never_fall()
    ensures { TakesNeverFall }
{}
