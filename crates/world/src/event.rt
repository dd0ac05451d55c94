use evaluation::Inputs;
use task_codes::TaskRef;

/// What may happen in a plant.
#[derive(Drop)]
pub enum Event {
    /// A task is evaluated, `dt` milliseconds after its evaluation before, with these field inputs. What it gives is the next message.
    Evaluate {
        ticket: u64,
        task: TaskRef,
        dt: u32,
        inputs: Inputs,
    },
    /// A message comes to a resource. Messages count from 1, in the order of the evaluations made.
    Deliver {
        message: u64,
        resource: usize,
    },
    /// A resource restarts: it forgets all but what its tasks retain, and its incarnation rises by one.
    Restart {
        resource: usize,
    },
    /// A resource hears that another one is in an incarnation.
    Hear {
        resource: usize,
        of: usize,
        incarnation: u32,
    },
}
