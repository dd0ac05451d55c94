use exchange_core::Accepted;

/// What an event did.
#[derive(Clone, Copy, Debug, PartialEq, Eq)]
pub enum Done {
    /// An evaluation was made: this message.
    Evaluated { message: u64 },
    /// A message came to a resource, which answered this.
    Delivered { accepted: Accepted },
    /// A resource restarted, in this incarnation.
    Restarted { incarnation: u32 },
    /// A resource heard of an incarnation of another one: whether it is newer than what it had heard of it.
    Heard { newer: bool },
}
