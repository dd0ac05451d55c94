use crate::threads::hello::Hello;
use evaluation::Frame;

/// What comes to the thread of a resource.
#[derive(Drop)]
pub(crate) enum Inbox {
    /// An evaluation of another resource's task.
    Frame(Frame),
    /// Another resource's incarnation.
    Hello(Hello),
    /// What the resource is asked to do: the command at this place among those of the run.
    Command(usize),
    /// Nothing else comes that counts.
    Stop,
}
