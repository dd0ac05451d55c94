ghost use Rattle.std.specs.Prelude.{◌≡◌};

use words::Text;

/// A task: its name, how often it is due, and its priority.
#[derive(Debug, Drop)]
pub struct Task {
    name: Text,
    interval: u32,
    priority: u16,
}

impl std::marker::Model for Task {
    ghost use Rattle.std.specs.Prelude.{◌<◌};
    ghost use Rattle.plant.specs.PlantValue.{TaskValue};

    ghost Value = { TaskValue };

    ghost view = { λ t. record { name = t.name; interval = t.interval; priority = t.priority } };

    ghost invariant = { λ t. 0 < t.interval };
}

impl Task {
    ghost use Rattle.std.specs.Prelude.{◌<◌};

    /// A task of a positive interval.
    pub(crate) fn new(name: Text, interval: u32, priority: u16) -> Task
        requires { 0 < interval }
        ensures { result ≡ record { name = name; interval = interval; priority = priority } }
    {
        Task {
            name,
            interval,
            priority,
        }
    }

    /// The name as it was declared.
    pub fn name(&self) -> &str
        ensures { result.now ≡ self.now.name }
    {
        self.name.as_str()
    }

    /// The time from one evaluation to the next, from 1 to 2,147,483,647 ms.
    pub fn interval(&self) -> u32
        ensures value { result ≡ self.now.interval }
        ensures positive { 0 < self.now.interval }
    {
        self.interval
    }

    /// The priority, from 0 to 65,535; 0 is the highest.
    pub fn priority(&self) -> u16
        ensures { result ≡ self.now.priority }
    {
        self.priority
    }
}
