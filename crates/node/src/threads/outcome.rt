use book::Book;
use keepers::Keeper;
use node_reports::{Journal, NodeFault};

/// What the threads of a run left.
#[derive(Drop)]
pub struct Outcome<K: Keeper> {
    pub book: Book,
    /// In the order of the resources.
    pub journals: Vec<Journal>,
    /// In the order of the resources.
    pub keepers: Vec<K>,
    /// First those that the caller's thread noted, then those of each resource in order.
    pub faults: Vec<NodeFault>,
}
