use evaluation::Retained;
use std::marker::Model;

/// The retained values with which each task of a resource opens, in the order of the tasks.
#[derive(Drop)]
pub struct Opening {
    listed: Vec<Retained>,
}

impl Model for Opening {
    ghost use Rattle.std.specs.Prelude.{List};
    ghost use Rattle.std_blocks.specs.declared.value.Value.{Value as RetainedValue};

    ghost Value = { List (List RetainedValue) };

    ghost view = { λ o. o.listed.items };
}

ghost use Rattle.std.specs.Prelude.{◌≡◌};

impl Opening {
    /// These values, one `Retained` for each task.
    pub fn of(listed: Vec<Retained>) -> Opening
        ensures { result ≡ listed.items }
    {
        Opening { listed }
    }

    /// The retained values of each task.
    pub fn as_slice(&self) -> &[Retained]
        ensures { result.now ≡ self.now }
    {
        self.listed.as_slice()
    }
}
