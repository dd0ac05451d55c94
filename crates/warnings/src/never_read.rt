//! Local variables of a program that are stored into and never read.

ghost use Rattle.std.specs.Prelude.{◌≡◌, ◌++◌, ◌&&◌, not, OnOk, IfOk, ℕ, List, map};
ghost use Rattle.std.specs.List.{flat_map};
ghost use Rattle.std.specs.BTreeSet.{contains_text};
ghost use Rattle.declared_names.specs.declared.declarations.Declaration.{Declaration};
ghost use Rattle.warnings.specs.Found.{is_among, small};
ghost use Rattle.warnings.specs.NeverRead.{is_local_one, is_local, unread, unread_at_pin, unread_at, never_read};
ghost use Rattle.warnings.specs.Steps.NameSets.{AreSmall};

use crate::names::{NameUse, names_of};
use crate::small_names::{small, small_names};
use crate::warning::{Warning, WarningKind};
use declared_names::{Declarations, Declared};
use drawings::{DrawnPin, Place, Side};
use network::Element;
use std::alloc::{AllocError, Global};
use std::collections::BTreeSet;

fn is_local_one(declared: Declared) -> bool
    ensures { result ≡ is_local_one declared }
{
    match declared {
        Declared::Local(_) => true,
        Declared::Input(_) | Declared::Output(_) | Declared::Instance(_) => false,
    }
}

/// Whether a name is that of a local variable.
fn is_local(declarations: &Declarations, name: &str) -> bool
    ensures { result ≡ is_local declarations.now name.now }
{
    let Some(place) = declarations.position(name) else {
        return false;
    };
    match declarations.declared_at(place) {
        Some(declared) => is_local_one(declared),
        None => false,
    }
}

/// Whether a name is none of those that something reads.
fn is_unread(alloc: Global, read: &BTreeSet<String>, name: &str) -> Result<bool, AllocError>
    ensures { (xs : List (List ℕ)) → AreSmall xs read.now → IfOk result (λ r. r ≡ not (is_among name.now xs)) }
{
    let name = small(alloc, name)?;
    let known = read.contains(name.as_str());
    Ok(!known)
}

/// Warns of a place where a name is stored into, if it is that of a local variable that nothing reads.
fn push_unread(
    warnings: &mut Vec<Warning>,
    first_line: u64,
    declarations: &Declarations,
    read: &BTreeSet<String>,
    name: &str,
    place: Place,
) -> Result<(), AllocError>
    ensures { (xs : List (List ℕ)) → AreSmall xs read.now → OnOk result (warnings.new.items ≡ warnings.old.items ++ unread first_line declarations.now xs name.now place) }
{
    let alloc = *warnings.allocator();
    if is_local(declarations, name) && is_unread(alloc, read, name)? {
        warnings.push(Warning::at(WarningKind::NeverRead, first_line, place))?;
    }
    Ok(())
}

fn push_unread_pin(
    warnings: &mut Vec<Warning>,
    first_line: u64,
    declarations: &Declarations,
    read: &BTreeSet<String>,
    pin: &DrawnPin,
) -> Result<(), AllocError>
    ensures { (xs : List (List ℕ)) → AreSmall xs read.now → OnOk result (warnings.new.items ≡ warnings.old.items ++ unread_at_pin first_line declarations.now xs pin.now) }
{
    match (pin.side, &pin.operand) {
        (Side::Right, Some(operand)) => {
            let place = Place {
                row: pin.row,
                column: operand.column,
            };
            push_unread(
                warnings,
                first_line,
                declarations,
                read,
                operand.text.as_str(),
                place,
            )
        }
        _ => Ok(()),
    }
}

fn push_unread_pins(
    warnings: &mut Vec<Warning>,
    first_line: u64,
    declarations: &Declarations,
    read: &BTreeSet<String>,
    pins: &[DrawnPin],
) -> Result<(), AllocError>
    ensures { (xs : List (List ℕ)) → AreSmall xs read.now → OnOk result (warnings.new.items ≡ warnings.old.items ++ flat_map (unread_at_pin first_line declarations.now xs) pins.now) }
{
    for pin in pins {
        push_unread_pin(warnings, first_line, declarations, read, pin)?;
    }
    Ok(())
}

/// Warns of what an element stores into.
fn push_unread_at(
    warnings: &mut Vec<Warning>,
    first_line: u64,
    declarations: &Declarations,
    read: &BTreeSet<String>,
    element: &Element,
) -> Result<(), AllocError>
    ensures { (xs : List (List ℕ)) → AreSmall xs read.now → OnOk result (warnings.new.items ≡ warnings.old.items ++ unread_at first_line declarations.now xs element.now) }
{
    match element {
        Element::Coil(coil) => {
            let place = Place {
                row: coil.row,
                column: coil.column,
            };
            push_unread(
                warnings,
                first_line,
                declarations,
                read,
                coil.name.as_str(),
                place,
            )
        }
        Element::Box(boxed) => push_unread_pins(
            warnings,
            first_line,
            declarations,
            read,
            boxed.drawn().pins.as_slice(),
        ),
        _ => Ok(()),
    }
}

/// Where local variables are stored into that nothing reads.
pub fn never_read(
    alloc: Global,
    first_line: u64,
    declarations: &Declarations,
    elements: &[&Element],
) -> Result<Vec<Warning>, AllocError>
    ensures { IfOk result (λ found. found.items ≡ never_read first_line declarations.now (map (λ e. e.now) elements.now)) }
{
    let read = small_names(alloc, &names_of(alloc, NameUse::Read, elements)?)?;
    let mut found = Vec::new(alloc);
    for element in elements {
        push_unread_at(&mut found, first_line, declarations, &read, element)?;
    }
    Ok(found)
}
