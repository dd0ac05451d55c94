ghost use Rattle.std.specs.Prelude.{◌≡◌, ◌↔◌, ◌++◌, ◌+◌, ◌-◌, ◌<◌, IsTrue, IfOk, OnOk, MatchOption, Some, length, true};
ghost use Rattle.std.specs.Option.{option_and_then};
ghost use Rattle.std_blocks.specs.declared.pin.Pin.{Pin};
ghost use Rattle.std_blocks.specs.declared.pin.Field.{Field};
ghost use Rattle.std_blocks.specs.Pins.{pin_of, input, output};
ghost use Rattle.drawings.specs.declared.drawn_box.DrawnPin.{DrawnPin};
ghost use Rattle.drawings.specs.declared.drawn_box.Side.TheVariants.{Left, Right};
ghost use Rattle.drawings.specs.declared.drawn_box.DrawnBox.{DrawnBox};
ghost use Rattle.declared_names.specs.Names.{place_of};
ghost use Rattle.power_flow.specs.Meaning.{IsDrawn, IsUndrawn};
ghost use Rattle.power_flow.specs.Steps.NameSources.{operand_source, pin_source};
ghost use Rattle.name_faults.specs.Steps.Named.{IsDrawnOnce, AreOutputs, IsInRange, AreInRange, IsNamedBox};
ghost use Rattle.power_flow.specs.Steps.BoxTable.{boxes_of, own_box, output_if, IsSourceOfBit, IsSourceOfValue, IsOperandInRange, IsBitSource, IsBoundIfNamed, IsBoundBox, AreBoundOutputs, AreBoundIfNamed, AreBoundWith, ArePinRowsKept, AreRowsKept, AreRowsKeptWith};

use crate::binding::source::name_source;
use declared_names::Declarations;
use drawings::{DrawnBox, DrawnPin, Side};
use name_faults::literal_value;
use network::Element;
use scan_steps::{BoundBox, BoundOutput, Source};
use std::alloc::{AllocError, Global};
use std_blocks::{BlockType, Field, Pin};
use words::Text;

/// Whether a name is that of this input of a block.
fn is_input(block: BlockType, name: &str, field: Field) -> bool
    ensures { IsTrue result ↔ (pin_of block name.now ≡ Some (input field)) }
{
    match block.pin(name) {
        Some(
            Pin {
                left: true,
                field: found,
            },
        ) => found == field,
        _ => false,
    }
}

/// Whether a drawn pin is this input of its block.
fn is_drawn_input(pin: &DrawnPin, block: BlockType, field: Field) -> bool
    ensures { IsTrue result ↔ ((pin.now.side ≡ Left) × (pin_of block pin.now.name ≡ Some (input field))) }
{
    match pin.side {
        Side::Left => is_input(block, pin.name.as_str(), field),
        Side::Right => false,
    }
}

/// The first drawn pin that is this input of the block.
fn drawn_input(drawn: &DrawnBox, block: BlockType, field: Field) -> Option<&DrawnPin>
    ensures { MatchOption result (IsUndrawn drawn.now block field) (λ p. IsDrawn drawn.now block field p.now) }
{
    for pin in drawn.pins.as_slice() {
        if is_drawn_input(pin, block, field) {
            return Some(pin);
        }
    }
    None
}

/// The source of a Boolean pin: its operand, or its row.
fn pin_bit_source(declarations: &Declarations, top: usize, pin: &DrawnPin) -> Source
    ensures { IsBitSource declarations.now top pin.now result }
{
    match &pin.operand {
        Some(operand) => name_source(declarations, &operand.text),
        None => Source::Power(pin.row.saturating_sub(top)),
    }
}

/// The source of a Boolean input.
fn bit_source(
    declarations: &Declarations,
    top: usize,
    drawn: &DrawnBox,
    block: BlockType,
    k: usize,
) -> Source
    ensures none { IsUndrawn drawn.now block (Field.Bit k) → result ≡ Source.Nothing }
    ensures some { IsDrawnOnce drawn.now block → IsSourceOfBit declarations.now top drawn.now block k result }
{
    match drawn_input(drawn, block, Field::Bit(k)) {
        Some(pin) => pin_bit_source(declarations, top, pin),
        None => Source::Nothing,
    }
}

/// The source of an operand that is in range: a literal, or what its name stands for.
#[tactic(auto, unfolding(crate::specs::Steps::NameSources::operand_source))]
fn operand_source(declarations: &Declarations, text: &Text) -> Source
    ensures { IsInRange text.now → result ≡ operand_source declarations.now text.now }
{
    match literal_value(text) {
        Some(value) => Source::Literal(value),
        None => name_source(declarations, text),
    }
}

/// The source of an INT or TIME pin: its operand, if it has one.
fn pin_value_source(declarations: &Declarations, pin: &DrawnPin) -> Source
    ensures { IsOperandInRange pin.now → result ≡ pin_source declarations.now pin.now }
{
    match &pin.operand {
        Some(operand) => operand_source(declarations, &operand.text),
        None => Source::Nothing,
    }
}

/// The source of an INT or TIME input.
fn value_source(
    declarations: &Declarations,
    drawn: &DrawnBox,
    block: BlockType,
    field: Field,
) -> Source
    ensures none { IsUndrawn drawn.now block field → result ≡ Source.Nothing }
    ensures some { IsDrawnOnce drawn.now block → AreInRange drawn.now
        → IsSourceOfValue declarations.now drawn.now block field result }
{
    match drawn_input(drawn, block, field) {
        Some(pin) => pin_value_source(declarations, pin),
        None => Source::Nothing,
    }
}

/// The field of a pin of the block.
fn field_of(block: BlockType, name: &str) -> Field
    ensures { (pin : Pin) → pin_of block name.now ≡ Some pin → result ≡ pin.field }
{
    match block.pin(name) {
        Some(pin) => pin.field,
        None => Field::Int,
    }
}

/// The place of the variable at which a pin stores.
fn store_place(declarations: &Declarations, pin: &DrawnPin) -> Option<usize>
    ensures { result ≡ option_and_then (λ w. place_of declarations.now w.text) pin.now.operand }
{
    match &pin.operand {
        Some(operand) => declarations.position_of(operand.text.as_bytes()),
        None => None,
    }
}

/// An output pin with its row, and the variable at which it stores.
fn bound_output(
    declarations: &Declarations,
    top: usize,
    block: BlockType,
    pin: &DrawnPin,
) -> BoundOutput
    ensures row { result.row ≡ pin.now.row - top }
    ensures bound { IsBoundIfNamed declarations.now top block pin.now result }
{
    BoundOutput {
        field: field_of(block, pin.name.as_str()),
        row: pin.row.saturating_sub(top),
        store: store_place(declarations, pin),
    }
}

/// Adds a pin of the right side.
fn push_output(
    outputs: &mut Vec<BoundOutput>,
    side: Side,
    output: BoundOutput,
) -> Result<(), AllocError>
    ensures { OnOk result (outputs.new.items ≡ outputs.old.items ++ output_if side output) }
{
    match side {
        Side::Left => Ok(()),
        Side::Right => {
            outputs.push(output)?;
            Ok(())
        }
    }
}

/// The output pins of a box by row.
fn outputs_of(
    alloc: Global,
    declarations: &Declarations,
    top: usize,
    drawn: &DrawnBox,
    block: BlockType,
) -> Result<Vec<BoundOutput>, AllocError>
    ensures within { IfOk result (λ outputs. ArePinRowsKept top drawn.now outputs.items) }
    ensures bound { IfOk result (λ outputs. AreOutputs drawn.now block
        → AreBoundOutputs declarations.now top block drawn.now outputs.items) }
{
    let mut outputs = Vec::new(alloc);
    for pin in drawn.pins.as_slice() {
        let output = bound_output(declarations, top, block, pin);
        push_output(&mut outputs, pin.side, output)?;
    }
    Ok(outputs)
}

/// A box with its names bound.
fn bind_box(
    alloc: Global,
    declarations: &Declarations,
    top: usize,
    drawn: &DrawnBox,
) -> Result<BoundBox, AllocError>
    ensures within { IfOk result (λ e. ArePinRowsKept top drawn.now e.outputs.items) }
    ensures bound { IfOk result (λ e. IsNamedBox declarations.now drawn.now
        → IsBoundBox declarations.now top drawn.now e) }
{
    let block = drawn.block;
    let outputs = outputs_of(alloc, declarations, top, drawn, block)?;
    Ok(BoundBox {
        block,
        instance: declarations
            .position_of(drawn.instance.as_bytes())
            .unwrap_or(0),
        bits: [
            bit_source(declarations, top, drawn, block, 0),
            bit_source(declarations, top, drawn, block, 1),
            bit_source(declarations, top, drawn, block, 2),
            bit_source(declarations, top, drawn, block, 3),
        ],
        int: value_source(declarations, drawn, block, Field::Int),
        time: value_source(declarations, drawn, block, Field::Time),
        outputs,
    })
}

/// Adds an element if it is a box.
fn push_box(
    boxes: &mut Vec<BoundBox>,
    alloc: Global,
    declarations: &Declarations,
    top: usize,
    element: &Element,
) -> Result<(), AllocError>
    ensures count { OnOk result (length boxes.new.items ≡ length boxes.old.items + length (own_box element.now)) }
    ensures within { OnOk result (AreRowsKeptWith top (own_box element.now) boxes.old.items boxes.new.items) }
    ensures bound { OnOk result (AreBoundWith declarations.now top
        (own_box element.now) boxes.old.items boxes.new.items) }
{
    match element {
        Element::Box(boxed) => {
            let bound = bind_box(alloc, declarations, top, boxed.drawn())?;
            boxes.push(bound)?;
            Ok(())
        }
        _ => Ok(()),
    }
}

/// The boxes among the elements with their names bound, in their order.
pub fn bind_boxes(
    alloc: Global,
    declarations: &Declarations,
    top: usize,
    elements: &[Element],
) -> Result<Vec<BoundBox>, AllocError>
    ensures count { IfOk result (λ boxes. length boxes.items ≡ length (boxes_of elements.now)) }
    ensures within { IfOk result (λ boxes. AreRowsKept top (boxes_of elements.now) boxes.items) }
    ensures bound { IfOk result (λ boxes. AreBoundIfNamed declarations.now top (boxes_of elements.now) boxes.items) }
{
    let mut boxes = Vec::new(alloc);
    for element in elements {
        push_box(&mut boxes, alloc, declarations, top, element)?;
    }
    Ok(boxes)
}
