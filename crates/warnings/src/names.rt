//! The names in a drawing.

ghost use Rattle.std.specs.Prelude.{◌≡◌, ◌++◌, OnOk, IfOk, map};
ghost use Rattle.std.specs.List.{flat_map};
ghost use Rattle.warnings.specs.Found.{pin_names};
ghost use Rattle.warnings.specs.Steps.NamesOf.{used_at_pin, used_at};

use drawings::{DrawnPin, Side};
use network::Element;
use std::alloc::{AllocError, Global};

/// What is done with a name.
#[derive(Clone, Copy, Debug, PartialEq, Eq)]
pub enum NameUse {
    /// It is read, or stored into.
    Any,
    Stored,
    Read,
}

fn push_pin<'a>(names: &mut Vec<&'a str>, pin: &'a DrawnPin) -> Result<(), AllocError>
    ensures { OnOk result (map (λ n. n.now) names.new.items ≡ map (λ n. n.now) names.old.items ++ pin_names pin.now) }
{
    if let Some(operand) = &pin.operand {
        names.push(operand.text.as_str())?;
    }
    Ok(())
}

/// Adds the name at a pin, if it is used so there.
fn push_used_pin<'a>(
    names: &mut Vec<&'a str>,
    name_use: NameUse,
    pin: &'a DrawnPin,
) -> Result<(), AllocError>
    ensures { OnOk result (map (λ n. n.now) names.new.items ≡ map (λ n. n.now) names.old.items ++ used_at_pin name_use pin.now) }
{
    match (name_use, pin.side) {
        (NameUse::Stored, Side::Left) | (NameUse::Read, Side::Right) => Ok(()),
        _ => push_pin(names, pin),
    }
}

fn push_used_pins<'a>(
    names: &mut Vec<&'a str>,
    name_use: NameUse,
    pins: &'a [DrawnPin],
) -> Result<(), AllocError>
    ensures { OnOk result (map (λ n. n.now) names.new.items ≡ map (λ n. n.now) names.old.items ++ flat_map (used_at_pin name_use) pins.now) }
{
    for pin in pins {
        push_used_pin(names, name_use, pin)?;
    }
    Ok(())
}

/// Adds the names that an element uses so.
fn push_used<'a>(
    names: &mut Vec<&'a str>,
    name_use: NameUse,
    element: &'a Element,
) -> Result<(), AllocError>
    ensures { OnOk result (map (λ n. n.now) names.new.items ≡ map (λ n. n.now) names.old.items ++ used_at name_use element.now) }
{
    match (element, name_use) {
        (Element::Contact(contact), NameUse::Any | NameUse::Read) => {
            names.push(contact.name.as_str())?;
        }
        (Element::Coil(coil), NameUse::Any | NameUse::Stored) => names.push(coil.name.as_str())?,
        (Element::Box(boxed), _) => {
            push_used_pins(names, name_use, boxed.drawn().pins.as_slice())?;
        }
        _ => {}
    }
    Ok(())
}

/// The names that the elements use so.
pub fn names_of<'a>(
    alloc: Global,
    name_use: NameUse,
    elements: &[&'a Element],
) -> Result<Vec<&'a str>, AllocError>
    ensures { IfOk result (λ names. map (λ n. n.now) names.items ≡ flat_map (used_at name_use) (map (λ e. e.now) elements.now)) }
{
    let mut names = Vec::new(alloc);
    for element in elements {
        push_used(&mut names, name_use, element)?;
    }
    Ok(names)
}
