use crate::out_of_turns::OutOfTurns;

/// Lets commands wait for one another, for a bounded number of turns.
pub trait Gate: Sync {
    /// The caller's thread asks this before it sends the command of a ticket.
    fn issue(&self, ticket: u64) -> Result<(), OutOfTurns>;

    /// A resource's thread asks this before it obeys the command of a ticket.
    fn pass(&self, resource: usize, ticket: u64) -> Result<(), OutOfTurns>;

    /// The command of a ticket is done with, obeyed or not. Its resource's thread says so, or the caller's where the command isn't sent.
    fn sent(&self, resource: usize, ticket: u64) -> Result<(), OutOfTurns>;
}
