ghost use Rattle.std.specs.Prelude.{◌≡◌};
ghost use Rattle.name_faults.specs.PinKinds.{field_kind, stands_on, pin_kind};

use declared_names::Kind;
use drawings::{DrawnPin, Side};
use std_blocks::{BlockType, Field, Pin};

/// The kind of the values of a field.
pub fn kind_of_field(field: Field) -> Kind
    ensures { result ≡ field_kind field }
{
    match field {
        Field::Bit(_) => Kind::Bool,
        Field::Int => Kind::Int,
        Field::Time => Kind::Time,
    }
}

/// Whether a pin belongs on that side of a box.
pub fn is_on_side(side: Side, pin: Pin) -> bool
    ensures { result ≡ stands_on side pin }
{
    match side {
        Side::Left => pin.left,
        Side::Right => !pin.left,
    }
}

/// The kind of a drawn pin of a block of this type; BOOL if the type has no such pin on that side.
pub fn kind_of_pin(block: BlockType, pin: &DrawnPin) -> Kind
    ensures { result ≡ pin_kind block pin.now }
{
    match block.pin(pin.name.as_str()) {
        Some(found) if is_on_side(pin.side, found) => kind_of_field(found.field),
        _ => Kind::Bool,
    }
}
