use keepers::Keeper;
use node_reports::{Journal, NodeFault};

/// What the threads left: journals and keepers in the order of the resources, and the faults.
#[derive(Drop)]
pub(crate) struct Parted<K: Keeper> {
    pub journals: Vec<Journal>,
    pub keepers: Vec<K>,
    pub faults: Vec<NodeFault>,
}
