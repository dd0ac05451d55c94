ghost use Rattle.std.specs.Prelude.{◌≡◌, ◌↔◌, IsTrue};
ghost use Rattle.evaluation.specs.Names.{precedes};

use task_codes::TaskRef;

/// The name of an evaluation: its task, the incarnation of the task's resource, and its number among the task's evaluations in that incarnation.
#[derive(Clone, Copy, Debug, PartialEq, Eq)]
pub struct Name {
    pub task: TaskRef,
    pub incarnation: u32,
    pub number: u32,
}

impl Name {
    /// Whether both name the same.
    pub fn same(&self, other: &Name) -> bool
        ensures { IsTrue result ↔ (self.now ≡ other.now) }
    {
        self.task == other.task
            && self.incarnation == other.incarnation
            && self.number == other.number
    }

    /// Whether this name's pair is below another's: by incarnation, and in one incarnation by number.
    pub fn precedes(&self, other: &Name) -> bool
        ensures { result ≡ precedes self.now other.now }
    {
        self.incarnation < other.incarnation
            || (self.incarnation == other.incarnation && self.number < other.number)
    }
}
