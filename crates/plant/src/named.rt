//! What stands first under a name.

ghost use Rattle.std.specs.Prelude.{◌≡◌, ℕ, List};
ghost use Rattle.plant.specs.Steps.Found.{FindsAt};

use crate::sources::resource_draft::ResourceDraft;
use crate::task::Task;
use plant_grammar::is_named;
use task_codes::ProgramInstance;

/// What has a name.
pub trait Named {
    ghost name_of: { Self → List ℕ };

    /// The name as it was declared.
    fn own_name(&self) -> &str
        ensures { result.now ≡ name_of self.now };
}

impl Named for Task {
    ghost name_of = { λ t. t.name };

    fn own_name(&self) -> &str {
        self.name()
    }
}

impl Named for ResourceDraft {
    ghost name_of = { λ r. r.name };

    fn own_name(&self) -> &str {
        self.name()
    }
}

impl Named for ProgramInstance {
    ghost name_of = { λ p. p.name };

    fn own_name(&self) -> &str {
        self.name()
    }
}

/// The position of the first of a name.
pub fn find_named<T: Named>(items: &[T], name: &str) -> Option<usize>
    ensures { FindsAt T.name_of items.now name.now result }
{
    for (k, item) in items.iter().enumerate() {
        if is_named(name, item.own_name()) {
            return Some(k);
        }
    }
    None
}
