ghost use Rattle.std.specs.Prelude.{◌≡◌, IfOk};

use drawings::{DrawnBox, DrawnPin, Operand, Pins, Symbol};
use std::alloc::{AllocError, Global};

pub fn copy_symbol<Kind: Copy>(
    alloc: Global,
    symbol: &Symbol<Kind>,
) -> Result<Symbol<Kind>, AllocError>
    ensures { IfOk result (λ copy. copy ≡ symbol.now) }
{
    let name = symbol.name.try_copy(alloc)?;
    Ok(Symbol {
        row: symbol.row,
        column: symbol.column,
        kind: symbol.kind,
        name,
    })
}

fn copy_operand(alloc: Global, operand: &Operand) -> Result<Operand, AllocError>
    ensures { IfOk result (λ copy. copy ≡ operand.now) }
{
    let text = operand.text.try_copy(alloc)?;
    Ok(Operand {
        text,
        column: operand.column,
    })
}

fn copy_pin(alloc: Global, pin: &DrawnPin) -> Result<DrawnPin, AllocError>
    ensures { IfOk result (λ copy. copy ≡ pin.now) }
{
    let name = pin.name.try_copy(alloc)?;
    let operand = match &pin.operand {
        Some(operand) => Some(copy_operand(alloc, operand)?),
        None => None,
    };
    Ok(DrawnPin {
        row: pin.row,
        side: pin.side,
        name,
        operand,
    })
}

fn copy_pins(alloc: Global, pins: &Pins) -> Result<Pins, AllocError>
    ensures { IfOk result (λ copy. copy ≡ pins.now) }
{
    let mut copy = Pins::new(alloc);
    for pin in pins.as_slice() {
        let pin = copy_pin(alloc, pin)?;
        copy.push(pin)?;
    }
    Ok(copy)
}

pub fn copy_box(alloc: Global, drawn: &DrawnBox) -> Result<DrawnBox, AllocError>
    ensures { IfOk result (λ copy. copy ≡ drawn.now) }
{
    let instance = drawn.instance.try_copy(alloc)?;
    let pins = copy_pins(alloc, &drawn.pins)?;
    Ok(DrawnBox {
        top: drawn.top,
        left: drawn.left,
        bottom: drawn.bottom,
        right: drawn.right,
        block: drawn.block,
        instance,
        pins,
    })
}
