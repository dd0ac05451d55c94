use crate::book::ledger::place::Place;
use task_codes::TaskRef;

/// The places of a task's entries, in their order.
#[derive(Drop)]
pub struct TaskPlaces {
    pub task: TaskRef,
    pub places: Vec<Place>,
}
