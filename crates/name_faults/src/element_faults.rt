//! The first fault of the names at elements.

ghost use Rattle.std.specs.Prelude.{◌≡◌, Some};
ghost use Rattle.name_faults.specs.Steps.ElementFindings.{kind_fault, write_fault, fault_with, variable_declared, element_findings, IsFirstFinding, network_findings, findings};
ghost use Rattle.name_faults.specs.Steps.BoxFindings.{read_name_fault, name_kind};

use crate::bind_fault::BindKind;
use crate::box_faults::{box_finding, fault_here, name_kind, read_name_fault};
use crate::finding::{Finding, earlier};
use crate::names::{declared_at, parts};
use declared_names::{Declarations, Declared, Kind};
use drawings::Place;
use network::{Element, Network};
use words::Text;

fn kind_fault(kind: Kind) -> Option<BindKind>
    ensures { result ≡ kind_fault kind }
{
    match kind {
        Kind::Bool => None,
        Kind::Int | Kind::Time => Some(BindKind::WrongKind),
    }
}

fn write_fault(declared: Declared) -> Option<BindKind>
    ensures { result ≡ write_fault declared }
{
    match declared {
        Declared::Input(Kind::Bool) => Some(BindKind::WritesInput),
        Declared::Input(_) => Some(BindKind::WrongKind),
        Declared::Output(kind) | Declared::Local(kind) => kind_fault(kind),
        Declared::Instance(_) => Some(BindKind::WrongKind),
    }
}

/// What is declared at the name of a symbol. A dotted name is that of no variable.
#[tactic(auto, unfolding(crate::specs::Steps::ElementFindings::variable_declared))]
fn variable_declared(declarations: &Declarations, name: &Text) -> Result<Declared, BindKind>
    ensures { result ≡ variable_declared declarations.now name.now }
{
    let (first, _) = parts(name);
    let Some(declared) = declared_at(declarations, first) else {
        return Err(BindKind::UnknownName);
    };
    if first.len() < name.as_bytes().len() {
        return Err(BindKind::WrongKind);
    }
    Ok(declared)
}

/// What is wrong with what a contact reads.
fn contact_fault(declarations: &Declarations, name: &Text) -> Option<BindKind>
    ensures { result ≡ read_name_fault (Some Kind.Bool) (name_kind declarations.now name.now) }
{
    read_name_fault(Some(Kind::Bool), name_kind(declarations, name))
}

/// What is wrong with what a coil writes.
fn coil_fault(declarations: &Declarations, name: &Text) -> Option<BindKind>
    ensures { result ≡ fault_with write_fault (variable_declared declarations.now name.now) }
{
    match variable_declared(declarations, name) {
        Ok(declared) => write_fault(declared),
        Err(kind) => Some(kind),
    }
}

/// The first fault of an element.
fn element_finding(
    declarations: &Declarations,
    elements: &[Element],
    element: &Element,
) -> Option<Finding>
    ensures { IsFirstFinding (element_findings declarations.now elements.now element.now) result }
{
    match element {
        Element::Wire(_) | Element::Join(_) | Element::Upright(_) => None,
        Element::Contact(contact) => {
            let place = Place {
                row: contact.row,
                column: contact.column,
            };
            fault_here(contact_fault(declarations, &contact.name), place)
        }
        Element::Coil(coil) => {
            let place = Place {
                row: coil.row,
                column: coil.column,
            };
            fault_here(coil_fault(declarations, &coil.name), place)
        }
        Element::Box(boxed) => box_finding(declarations, elements, boxed.drawn()),
    }
}

/// The first fault of a network.
fn network_finding(declarations: &Declarations, elements: &[Element]) -> Option<Finding>
    ensures { IsFirstFinding (network_findings declarations.now elements.now) result }
{
    let mut first = None;
    for element in elements {
        first = earlier(first, element_finding(declarations, elements, element));
    }
    first
}

/// The first fault of all networks.
pub fn first_finding(declarations: &Declarations, networks: &[Network]) -> Option<Finding>
    ensures { IsFirstFinding (findings declarations.now networks.now) result }
{
    let mut first = None;
    for network in networks {
        first = earlier(first, network_finding(declarations, network.elements()));
    }
    first
}
