ghost use Rattle.std.specs.Prelude.{◌≡◌, ◌↔◌, IsTrue};
ghost use Rattle.declared_names.specs.Kinds.{kind_of, kind_of_space, value_first};

use crate::declarations::Kind;
use std_blocks::Value;
use words::Space;

/// The kind of a value.
pub fn kind_of(value: Value) -> Kind
    ensures { result ≡ kind_of value }
{
    match value {
        Value::Bool(_) => Kind::Bool,
        Value::Int(_) => Kind::Int,
        Value::Time(_) => Kind::Time,
    }
}

/// Whether two values are of one kind.
pub fn is_of_kind(value: Value, other: Value) -> bool
    ensures { IsTrue result ↔ (kind_of value ≡ kind_of other) }
{
    kind_of(value) == kind_of(other)
}

/// FALSE, 0 or T#0ms.
pub fn first_value(kind: Kind) -> Value
    ensures { result ≡ value_first kind }
{
    match kind {
        Kind::Bool => Value::Bool(false),
        Kind::Int => Value::Int(0),
        Kind::Time => Value::Time(0),
    }
}

/// The kind of the values that a space of addresses holds: bits are BOOL, words INT.
pub fn kind_of_space(space: Space) -> Kind
    ensures { result ≡ kind_of_space space }
{
    match space {
        Space::Bit => Kind::Bool,
        Space::Word => Kind::Int,
    }
}
