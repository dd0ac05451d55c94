ghost use Rattle.std.specs.Prelude.{◌≡◌, [], ◌∷◌, ◌==◌, ◌&&◌, ◌<◌, ◌≤◌, ◌-◌, ◌+◌, ◌++◌, ℕ, List, Some, nat_lt, not, length, slice_index_or, slice_get, take, drop};
ghost use Rattle.std.specs.List.{list_any};
ghost use Rattle.std_blocks.specs.Pins.{pin_of};
ghost use Rattle.drawings.specs.declared.drawn_box.DrawnPin.{DrawnPin};
ghost use Rattle.name_faults.specs.Steps.ElementFindings.{IsFirstFinding};
ghost use Rattle.name_faults.specs.Steps.BoxFindings.{wants, output_kind, declared_kind, name_kind, read_name_fault, literal_of, literal_fault, literal_kind_fault, stored_name_fault, read_fault_at, store_declared_fault, store_fault_at, operand_fault, field_on, own_field, kind_at, fault_here, fault_if, instance_fault, same_side, is_bit, has_bit, same_pin, is_among, pin_fault, operand_finding, is_beside, has_line, line_fault, pin_findings, corner_findings, pins_findings, box_findings, side_place, corner};

use crate::bind_fault::BindKind;
use crate::finding::{Finding, earlier};
use crate::kinds::{is_on_side, kind_of_field};
use crate::literal::{Literal, read_literal};
use crate::names::{declared_at, parts};
use declared_names::{Declarations, Declared, Kind, kind_of};
use drawings::{DrawnBox, DrawnPin, Place, Side};
use network::Element;
use std_blocks::{BlockType, Field, Pin};
use words::Text;

fn is_wanted(want: Option<Kind>, kind: Kind) -> bool
    ensures { result ≡ wants want kind }
{
    match want {
        Some(wanted) => wanted == kind,
        None => true,
    }
}

/// A fault at a place, if there is one.
pub fn fault_here(fault: Option<BindKind>, place: Place) -> Option<Finding>
    ensures { result ≡ fault_here fault place }
{
    match fault {
        Some(kind) => Some(Finding {
            kind,
            row: place.row,
            column: place.column,
        }),
        None => None,
    }
}

fn fault_if(wrong: bool, kind: BindKind) -> Option<BindKind>
    ensures { result ≡ fault_if wrong kind }
{
    if wrong { Some(kind) } else { None }
}

fn output_kind(pin: Option<Pin>) -> Result<Option<Kind>, BindKind>
    ensures { result ≡ output_kind pin }
{
    match pin {
        None => Err(BindKind::UnknownPin),
        Some(pin) => {
            if pin.left {
                Err(BindKind::UnknownPin)
            } else {
                Ok(Some(kind_of_field(pin.field)))
            }
        }
    }
}

fn declared_kind(declared: Declared, pin: &str) -> Result<Option<Kind>, BindKind>
    ensures { result ≡ declared_kind declared pin.now }
{
    match declared {
        Declared::Instance(_) if pin.is_empty() => Ok(None),
        Declared::Instance(block) => output_kind(block.pin(pin)),
        Declared::Input(kind) | Declared::Output(kind) | Declared::Local(kind) => {
            if pin.is_empty() {
                Ok(Some(kind))
            } else {
                Err(BindKind::WrongKind)
            }
        }
    }
}

/// The kind of the value at a name; None for a block itself.
#[tactic(auto, unfolding(crate::specs::Steps::BoxFindings::name_kind))]
pub fn name_kind(declarations: &Declarations, name: &Text) -> Result<Option<Kind>, BindKind>
    ensures { result ≡ name_kind declarations.now name.now }
{
    let (first, pin) = parts(name);
    match declared_at(declarations, first) {
        Some(declared) => declared_kind(declared, pin),
        None => Err(BindKind::UnknownName),
    }
}

/// What is wrong with reading a name where a kind is wanted, if any.
pub fn read_name_fault(want: Option<Kind>, name: Result<Option<Kind>, BindKind>) -> Option<BindKind>
    ensures { result ≡ read_name_fault want name }
{
    match (name, want) {
        (Err(fault), _) => Some(fault),
        (Ok(_), None) => None,
        (Ok(None), Some(_)) => Some(BindKind::WrongKind),
        (Ok(Some(kind)), Some(wanted)) => fault_if(wanted != kind, BindKind::WrongKind),
    }
}

/// What is wrong with a literal of a kind where one is wanted: its kind, and only then its range.
fn literal_kind_fault(want: Option<Kind>, kind: Kind, fits: bool) -> Option<BindKind>
    ensures { result ≡ literal_kind_fault want kind fits }
{
    match want {
        None => None,
        Some(wanted) => {
            if wanted == kind {
                fault_if(!fits, BindKind::LiteralOutOfRange)
            } else {
                Some(BindKind::WrongKind)
            }
        }
    }
}

/// What is wrong with reading an operand.
#[tactic(auto, unfolding(crate::specs::Steps::BoxFindings::read_fault_at))]
fn read_fault_at(declarations: &Declarations, want: Option<Kind>, text: &Text) -> Option<BindKind>
    ensures { result ≡ read_fault_at declarations.now want text.now }
{
    match read_literal(text) {
        Literal::Absent => read_name_fault(want, name_kind(declarations, text)),
        Literal::Value(value) => literal_kind_fault(want, kind_of(value), true),
        Literal::TooLarge(kind) => literal_kind_fault(want, kind, false),
    }
}

fn store_declared_fault(want: Option<Kind>, declared: Declared) -> Option<BindKind>
    ensures { result ≡ store_declared_fault want declared }
{
    match declared {
        Declared::Input(kind) => {
            if is_wanted(want, kind) {
                Some(BindKind::WritesInput)
            } else {
                Some(BindKind::WrongKind)
            }
        }
        Declared::Output(kind) | Declared::Local(kind) => fault_if(
            !is_wanted(want, kind),
            BindKind::WrongKind,
        ),
        Declared::Instance(_) => Some(BindKind::WrongKind),
    }
}

fn store_name_fault(
    declarations: &Declarations,
    want: Option<Kind>,
    text: &Text,
) -> Option<BindKind>
    ensures { result ≡ stored_name_fault declarations.now want text.now }
{
    let (first, _) = parts(text);
    match declared_at(declarations, first) {
        None => Some(BindKind::UnknownName),
        Some(declared) => {
            if first.len() < text.as_bytes().len() {
                Some(BindKind::WrongKind)
            } else {
                store_declared_fault(want, declared)
            }
        }
    }
}

/// What is wrong with storing at an operand.
#[tactic(auto, unfolding(crate::specs::Steps::BoxFindings::store_fault_at))]
fn store_fault_at(declarations: &Declarations, want: Option<Kind>, text: &Text) -> Option<BindKind>
    ensures { result ≡ store_fault_at declarations.now want text.now }
{
    match read_literal(text) {
        Literal::Absent => store_name_fault(declarations, want, text),
        _ => Some(BindKind::WrongKind),
    }
}

fn operand_fault(
    declarations: &Declarations,
    side: Side,
    want: Option<Kind>,
    text: &Text,
) -> Option<BindKind>
    ensures { result ≡ operand_fault declarations.now side want text.now }
{
    match side {
        Side::Left => read_fault_at(declarations, want, text),
        Side::Right => store_fault_at(declarations, want, text),
    }
}

/// The field of a pin, if its type has it on that side.
fn own_field(drawn: &DrawnBox, pin: &DrawnPin) -> Option<Field>
    ensures { result ≡ own_field drawn.now pin.now }
{
    match drawn.block.pin(pin.name.as_str()) {
        Some(found) if is_on_side(pin.side, found) => Some(found.field),
        _ => None,
    }
}

fn kind_at(field: Option<Field>) -> Option<Kind>
    ensures { result ≡ kind_at field }
{
    match field {
        Some(field) => Some(kind_of_field(field)),
        None => None,
    }
}

fn side_place(drawn: &DrawnBox, row: usize, side: Side) -> Place
    ensures { result ≡ side_place drawn.now row side }
{
    match side {
        Side::Left => Place {
            row,
            column: drawn.left,
        },
        Side::Right => Place {
            row,
            column: drawn.right,
        },
    }
}

fn instance_fault(block: BlockType, declared: Option<Declared>) -> Option<BindKind>
    ensures { result ≡ instance_fault block declared }
{
    match declared {
        None => Some(BindKind::UnknownName),
        Some(Declared::Instance(found)) => fault_if(found != block, BindKind::WrongKind),
        Some(_) => Some(BindKind::WrongKind),
    }
}

fn is_bit(field: Option<Field>) -> bool
    ensures { result ≡ is_bit field }
{
    match field {
        Some(Field::Bit(_)) => true,
        _ => false,
    }
}

/// Whether a pin is a Boolean one of this side.
fn is_bit_on(drawn: &DrawnBox, side: Side, pin: &DrawnPin) -> bool
    ensures { result ≡ (same_side side pin.now.side && is_bit (own_field drawn.now pin.now)) }
{
    side == pin.side && is_bit(own_field(drawn, pin))
}

/// Whether a Boolean pin of the type is drawn on this side.
#[tactic(auto, unfolding(crate::specs::Steps::BoxFindings::has_bit))]
fn has_bit(drawn: &DrawnBox, side: Side) -> bool
    ensures { result ≡ has_bit drawn.now side }
{
    drawn
        .pins
        .as_slice()
        .iter()
        .any(|pin| is_bit_on(drawn, side, pin))
}

fn is_same_pin(pin: Option<Pin>, other: Option<Pin>) -> bool
    ensures { result ≡ same_pin pin other }
{
    match (pin, other) {
        (Some(pin), Some(other)) => pin == other,
        _ => false,
    }
}

/// Whether one of these pins is the same pin of the type.
#[tactic(auto, unfolding(crate::specs::Steps::BoxFindings::is_among))]
fn is_among(block: BlockType, pins: &[DrawnPin], name: &str) -> bool
    ensures { result ≡ is_among block pins.now name.now }
{
    let found = block.pin(name);
    pins.iter()
        .any(|pin| is_same_pin(block.pin(pin.name.as_str()), found))
}

fn pin_fault(field: Option<Field>, twice: bool) -> Option<BindKind>
    ensures { result ≡ pin_fault field twice }
{
    match field {
        None => Some(BindKind::UnknownPin),
        Some(_) => fault_if(twice, BindKind::UnknownPin),
    }
}

fn operand_finding(declarations: &Declarations, drawn: &DrawnBox, pin: &DrawnPin) -> Option<Finding>
    ensures { result ≡ operand_finding declarations.now drawn.now pin.now pin.now.operand }
{
    match &pin.operand {
        None => None,
        Some(operand) => {
            let want = kind_at(own_field(drawn, pin));
            let fault = operand_fault(declarations, pin.side, want, &operand.text);
            fault_here(
                fault,
                Place {
                    row: pin.row,
                    column: operand.column,
                },
            )
        }
    }
}

/// Whether a wire, a join or a symbol stands directly beside a side of the box on this row.
fn is_beside(drawn: &DrawnBox, row: usize, side: Side, element: &Element) -> bool
    ensures { result ≡ is_beside drawn.now row side element.now }
{
    match side {
        Side::Left => match element {
            Element::Wire(at) | Element::Join(at) => {
                at.row == row && at.column < drawn.left && drawn.left - at.column == 1
            }
            Element::Contact(contact) => {
                contact.row == row
                    && contact.column < drawn.left
                    && drawn.left - contact.column == 3
            }
            Element::Coil(coil) => {
                coil.row == row && coil.column < drawn.left && drawn.left - coil.column == 3
            }
            Element::Upright(_) | Element::Box(_) => false,
        },
        Side::Right => match element {
            Element::Wire(at) | Element::Join(at) => {
                at.row == row && drawn.right < at.column && at.column - drawn.right == 1
            }
            Element::Contact(contact) => {
                contact.row == row
                    && drawn.right < contact.column
                    && contact.column - drawn.right == 1
            }
            Element::Coil(coil) => {
                coil.row == row && drawn.right < coil.column && coil.column - drawn.right == 1
            }
            Element::Upright(_) | Element::Box(_) => false,
        },
    }
}

#[tactic(auto, unfolding(crate::specs::Steps::BoxFindings::has_line))]
fn has_line(elements: &[Element], drawn: &DrawnBox, pin: &DrawnPin) -> bool
    ensures { result ≡ has_line elements.now drawn.now pin.now }
{
    elements
        .iter()
        .any(|element| is_beside(drawn, pin.row, pin.side, element))
}

fn line_fault(field: Option<Field>, line: bool) -> Option<BindKind>
    ensures { result ≡ line_fault field line }
{
    match field {
        None | Some(Field::Bit(_)) => None,
        Some(Field::Int) | Some(Field::Time) => fault_if(line, BindKind::WrongKind),
    }
}

/// The first of three faults.
fn first_of_three(
    one: Option<Finding>,
    two: Option<Finding>,
    three: Option<Finding>,
) -> Option<Finding>
    ensures { IsFirstFinding (one ∷ two ∷ three ∷ []) result }
{
    let first = earlier(one, two);
    earlier(first, three)
}

/// The first fault of a pin.
#[tactic(auto, unfolding(crate::specs::Steps::BoxFindings::pin_findings))]
fn pin_finding(
    declarations: &Declarations,
    elements: &[Element],
    drawn: &DrawnBox,
    k: usize,
    pin: &DrawnPin,
) -> Option<Finding>
    requires { k ≤ length drawn.now.pins }
    ensures { IsFirstFinding (pin_findings declarations.now elements.now drawn.now k pin.now) result }
{
    let field = own_field(drawn, pin);
    let twice = is_among(drawn.block, &drawn.pins.as_slice()[..k], pin.name.as_str());
    let place = side_place(drawn, pin.row, pin.side);
    first_of_three(
        fault_here(pin_fault(field, twice), place),
        operand_finding(declarations, drawn, pin),
        fault_here(line_fault(field, has_line(elements, drawn, pin)), place),
    )
}

/// The first fault of a box at its corner.
#[tactic(auto, unfolding(crate::specs::Steps::BoxFindings::corner_findings))]
fn corner_finding(declarations: &Declarations, drawn: &DrawnBox) -> Option<Finding>
    ensures { IsFirstFinding (corner_findings declarations.now drawn.now) result }
{
    let place = Place {
        row: drawn.top,
        column: drawn.left,
    };
    let declared = declared_at(declarations, drawn.instance.as_bytes());
    first_of_three(
        fault_here(instance_fault(drawn.block, declared), place),
        fault_here(
            fault_if(!has_bit(drawn, Side::Left), BindKind::PinMissing),
            place,
        ),
        fault_here(
            fault_if(!has_bit(drawn, Side::Right), BindKind::PinMissing),
            place,
        ),
    )
}

/// The first fault of a box.
pub fn box_finding(
    declarations: &Declarations,
    elements: &[Element],
    drawn: &DrawnBox,
) -> Option<Finding>
    ensures { IsFirstFinding (box_findings declarations.now elements.now drawn.now) result }
{
    let mut first = corner_finding(declarations, drawn);
    let pins = drawn.pins.as_slice();
    for k in 0..pins.len() {
        first = earlier(
            first,
            pin_finding(declarations, elements, drawn, k, &pins[k]),
        );
    }
    first
}
