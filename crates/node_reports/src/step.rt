use evaluation::Frame;

/// One step of a resource.
#[derive(Drop)]
pub enum Step {
    /// It received this evaluation, and handed it to its core.
    Took(Frame),
    /// It made this evaluation.
    Made(Frame),
    /// It restarted in this incarnation, by the command of this ticket.
    Restarted { ticket: u64, incarnation: u32 },
    /// It heard that this resource is in this incarnation, and told its core.
    Heard { resource: usize, incarnation: u32 },
}
