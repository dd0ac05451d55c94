ghost use Rattle.std.specs.Prelude.{◌≡◌, ℕ, Bool, IfOk};
ghost use Rattle.gates.specs.Gates.{Agrees};
ghost use Rattle.declared_names.specs.Kinds.{value_first};
ghost use Rattle.scan_gates.specs.Encoded.{value_at};

use block_gates::EncodedInstance;
use declared_names::Kind;
use gate_words::{IntWord, TimeWord};
use gates::{Gates, Signal};
use std::alloc::{AllocError, Global};
use std_blocks::Value;

/// A value.
#[derive(Clone, Copy, Debug)]
pub enum EncodedValue {
    Bool(Signal),
    Int(IntWord),
    Time(TimeWord),
}

/// What stands at a declared name.
#[derive(Clone, Copy, Debug)]
pub enum EncodedSlot {
    Variable(EncodedValue),
    Block(EncodedInstance),
}

/// The value of a variable of this kind before the first scan.
pub fn first_value(gates: &Gates, kind: Kind) -> EncodedValue
    ensures { (v : ℕ → Bool) → Agrees v gates.now → value_at v result ≡ value_first kind }
{
    match kind {
        Kind::Bool => EncodedValue::Bool(gates.constant(false)),
        Kind::Int => EncodedValue::Int(IntWord::zero(gates)),
        Kind::Time => EncodedValue::Time(TimeWord::zero(gates)),
    }
}

/// This value, whatever the variables are.
pub fn constant_value(
    alloc: Global,
    gates: &Gates,
    value: Value,
) -> Result<EncodedValue, AllocError>
    ensures { IfOk result (λ new. (v : ℕ → Bool) → Agrees v gates.now → value_at v new ≡ value) }
{
    match value {
        Value::Bool(on) => Ok(EncodedValue::Bool(gates.constant(on))),
        Value::Int(number) => {
            let word = IntWord::constant(alloc, gates, number)?;
            Ok(EncodedValue::Int(word))
        }
        Value::Time(time) => {
            let word = TimeWord::constant(alloc, gates, time)?;
            Ok(EncodedValue::Time(word))
        }
    }
}
