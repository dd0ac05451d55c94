use crate::cause::Cause;

/// The first fault of a command: why it was not obeyed, or that a message of it was not sent, or that its retained variables were not kept.
#[derive(Clone, Copy, Debug, PartialEq, Eq)]
pub struct NodeFault {
    /// The resource to which the command was given, counted from 0.
    pub resource: usize,
    /// The ticket of the command.
    pub ticket: u64,
    pub cause: Cause,
}
