use crate::threads::noted::Noted;
use keepers::Keeper;
use node_reports::Journal;

/// What a thread leaves: its resource's journal, the faults of its commands in the order of their tickets, and its keeper.
#[derive(Drop)]
pub(crate) struct Ended<K: Keeper> {
    pub journal: Journal,
    pub noted: Noted,
    pub keeper: K,
}
