use keepers::Keeper;
use node_reports::Opening;

/// A keeper that was raised, and what it has kept of each task of its resource.
#[derive(Drop)]
pub(crate) struct Raised<K: Keeper> {
    pub keeper: K,
    pub opening: Opening,
}
