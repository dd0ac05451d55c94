ghost use Rattle.std.specs.Prelude.{◌≡◌, slice_set};

use evaluation::Retained;

/// What a resource has come to.
#[derive(Drop)]
pub(crate) struct Past {
    /// The retained values that a restart would leave of each task.
    pub left: Vec<Retained>,
}

impl Past {
    /// No line was done; each task begins with these retained values.
    pub(crate) fn new(left: Vec<Retained>) -> Past
        ensures { result.left ≡ left }
    {
        Past { left }
    }

    /// Notes what a task's evaluation has left.
    pub(crate) fn leave(&mut self, task: usize, retained: Retained)
        ensures { self.new.left.items ≡ slice_set self.old.left.items task retained }
    {
        if task < self.left.len() {
            self.left[task] = retained;
        }
    }
}
