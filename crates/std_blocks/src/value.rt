ghost use Rattle.std.specs.Prelude.{◌≡◌, ◌↔◌, IsTrue};

/// What a variable holds.
#[derive(Clone, Copy, Debug, PartialEq, Eq)]
pub enum Value {
    Bool(bool),
    Int(i16),
    /// In milliseconds.
    Time(u32),
}

impl Value {
    /// Whether both are of one kind and hold the same.
    pub fn same(&self, other: &Self) -> bool
        ensures { IsTrue result ↔ (self.now ≡ other.now) }
    {
        match (self, other) {
            (Value::Bool(on), Value::Bool(other)) => on == other,
            (Value::Int(number), Value::Int(other)) => number == other,
            (Value::Time(time), Value::Time(other)) => time == other,
            _ => false,
        }
    }
}

/// Whether both are the same values in the same order.
pub fn are_same_values(values: &[Value], others: &[Value]) -> bool
    ensures { IsTrue result ↔ (values.now ≡ others.now) }
{
    values == others
}
