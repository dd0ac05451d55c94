use node_reports::Command;
use task_codes::Due;

/// What a run does: the entries of a plan, and a command for each of them.
#[derive(Drop)]
pub struct PlannedRun {
    pub dues: Vec<Due>,
    pub commands: Vec<Command>,
}
