use thiserror::Error;

/// Why a core is not restarted.
#[derive(Clone, Copy, Debug, PartialEq, Eq, Error)]
pub enum RestartFault {
    /// There was no memory left.
    #[error("Memory")]
    Memory,
}
