use node_reports::{Journal, Station};

/// Whether a resource obeys commands.
#[derive(Drop)]
pub(crate) enum WorkerState {
    Running(Station),
    /// It can't go on. This is what it did before.
    Stopped(Journal),
}
