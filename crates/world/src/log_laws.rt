// What holds of the log of every list of events: the consistency theorem, and that the log is a book.
ghost use Rattle.world.specs.BookLaws.{RunsAreConsistent, RunsFit, RunsAreEntered, BooksAreConsistent, HoldersAgree};
ghost use Rattle.world.specs.Theorem.{ConsistencyTheorem};

use book::takes_never_fall;

/// The consistency theorem. Over every list of evaluations, deliveries, hearings and restarts, all inputs that an evaluation takes from one producing task come from one evaluation of it,
/// the latest addressed to the taker's present incarnation that reached its resource (else initial values); evaluations taken never go back, also across restarts;
/// resources that hold one evaluation hold equal values; each evaluation's outputs are the ladder meaning of its inputs and stored state.
pub fn consistency_theorem()
    ensures { ConsistencyTheorem }
{
    takes_never_fall();
}

/// A run is a consistent log.
pub fn runs_are_consistent()
    ensures { RunsAreConsistent }
{
    takes_never_fall();
}

/// Each evaluation of a run fits those before it.
pub fn runs_fit()
    ensures { RunsFit }
{}

/// Entering the log of a run into a book, in order, is refused for nothing but want of memory.
pub fn runs_are_entered()
    ensures { RunsAreEntered }
{}

/// Where events make the entries of a book again, the consistency theorem holds of these events and entries, and the entries are a consistent log.
pub fn books_are_consistent()
    ensures { BooksAreConsistent }
{
    takes_never_fall();
}

/// Resources that hold one evaluation hold equal values.
pub fn holders_agree()
    ensures { HoldersAgree }
{}
