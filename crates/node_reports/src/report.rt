use crate::journals::Journals;
use crate::node_faults::NodeFaults;
use crate::tickets::Tickets;
use book::Book;

/// What the threads of a plant did.
#[derive(Drop)]
pub struct Report {
    /// All evaluations that were made, in the order in which they were entered.
    pub book: Book,
    /// What each resource did. The evaluations that a journal has made are the book's entries of its resource.
    pub journals: Journals,
    /// The tickets of the Evaluate commands that no entry answers, rising.
    pub unanswered: Tickets,
    pub node_faults: NodeFaults,
}
