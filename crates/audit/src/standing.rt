use node_reports::{Journal, Station};

/// A resource where its lines have led it.
#[derive(Drop)]
pub(crate) enum Standing {
    Going(Station),
    /// It can't go on; this is its journal.
    Ended(Journal),
}
