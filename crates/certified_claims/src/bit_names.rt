//! What the state bits of a ladder are called.

ghost use Rattle.std.specs.Prelude.{◌≡◌, ◌++◌, ◌∷◌, [], IfOk, OnOk, Some, codes, length, map, slice_get, string_bytes};
ghost use Rattle.std.specs.Fmt.{decimal};
ghost use Rattle.std.specs.List.{flat_map};
ghost use Rattle.declared_names.specs.declared.declarations.Declaration.{Declaration};
ghost use Rattle.network.specs.Links.{place};
ghost use Rattle.power_flow.specs.declared.steps.circuit.Circuit.{Circuit as CircuitRecord};
ghost use Rattle.certified_claims.specs.BitNames.{bit_names, block_bits, declared_bits, digits, memory_bits, name_at, part, place_text, variable_bits};

use declared_names::{Declarations, Declared, Kind};
use drawings::Place;
use ladder_systems::{is_edge_coil, is_edge_contact};
use network::Element;
use power_flow::{Circuit, Ladder};
use std::alloc::{AllocError, Global};
use std_blocks::BlockType;

/// Puts a name behind the others.
fn push_name(name: String, names: &mut Vec<String>) -> Result<(), AllocError>
    ensures { OnOk result (map (λ n. string_bytes n) names.new.items ≡ map (λ n. string_bytes n) names.old.items ++ string_bytes name ∷ []) }
{
    names.push(name)?;
    Ok(())
}

/// The name of a part of what has a name.
fn part_name(alloc: Global, name: &str, of: &str) -> Result<String, AllocError>
    ensures { IfOk result (λ made. string_bytes made ≡ part name.now of.now) }
{
    let made = format!(in alloc; "{name}.{of}")?;
    Ok(made)
}

/// Adds a part of what has a name.
fn push_part(alloc: Global, name: &str, of: &str, names: &mut Vec<String>) -> Result<(), AllocError>
    ensures { OnOk result (map (λ n. string_bytes n) names.new.items ≡ map (λ n. string_bytes n) names.old.items ++ part name.now of.now ∷ []) }
{
    let made = part_name(alloc, name, of)?;
    push_name(made, names)
}

/// The name of a bit of a number.
fn digit_name(alloc: Global, name: &str, digit: usize) -> Result<String, AllocError>
    ensures { IfOk result (λ made. string_bytes made ≡ part name.now (decimal digit)) }
{
    let made = format!(in alloc; "{name}.{digit}")?;
    Ok(made)
}

/// Adds so many bits of a number.
fn push_digits(
    alloc: Global,
    name: &str,
    count: usize,
    names: &mut Vec<String>,
) -> Result<(), AllocError>
    ensures { OnOk result (map (λ n. string_bytes n) names.new.items ≡ map (λ n. string_bytes n) names.old.items ++ digits name.now count) }
{
    for digit in 0..count {
        let made = digit_name(alloc, name, digit)?;
        push_name(made, names)?;
    }
    Ok(())
}

/// Adds the bits of a count.
fn push_count(alloc: Global, name: &str, names: &mut Vec<String>) -> Result<(), AllocError>
    ensures { OnOk result (map (λ n. string_bytes n) names.new.items
        ≡ map (λ n. string_bytes n) names.old.items ++ digits (part name.now (codes "CV")) 16) }
{
    let count = part_name(alloc, name, "CV")?;
    push_digits(alloc, count.as_str(), 16, names)
}

/// Adds the bits of a timer.
fn push_timer(alloc: Global, name: &str, names: &mut Vec<String>) -> Result<(), AllocError>
    ensures { OnOk result (map (λ n. string_bytes n) names.new.items ≡ map (λ n. string_bytes n) names.old.items
        ++ (part name.now (codes "IN") ∷ part name.now (codes "Q") ∷ digits (part name.now (codes "ET")) 32)) }
{
    push_part(alloc, name, "IN", names)?;
    push_part(alloc, name, "Q", names)?;
    let elapsed = part_name(alloc, name, "ET")?;
    push_digits(alloc, elapsed.as_str(), 32, names)
}

/// Adds the bits of a counter that counts one way.
fn push_counter(
    alloc: Global,
    name: &str,
    input: &str,
    names: &mut Vec<String>,
) -> Result<(), AllocError>
    ensures { OnOk result (map (λ n. string_bytes n) names.new.items ≡ map (λ n. string_bytes n) names.old.items
        ++ (part name.now input.now ∷ part name.now (codes "Q") ∷ digits (part name.now (codes "CV")) 16)) }
{
    push_part(alloc, name, input, names)?;
    push_part(alloc, name, "Q", names)?;
    push_count(alloc, name, names)
}

/// Adds the bits of a counter that counts both ways.
fn push_up_down(alloc: Global, name: &str, names: &mut Vec<String>) -> Result<(), AllocError>
    ensures { OnOk result (map (λ n. string_bytes n) names.new.items ≡ map (λ n. string_bytes n) names.old.items ++ block_bits name.now BlockType.CTUD) }
{
    push_part(alloc, name, "CU", names)?;
    push_part(alloc, name, "CD", names)?;
    push_part(alloc, name, "QU", names)?;
    push_part(alloc, name, "QD", names)?;
    push_count(alloc, name, names)
}

/// Adds the bits of a block.
fn push_block(
    alloc: Global,
    name: &str,
    block: BlockType,
    names: &mut Vec<String>,
) -> Result<(), AllocError>
    ensures { OnOk result (map (λ n. string_bytes n) names.new.items ≡ map (λ n. string_bytes n) names.old.items ++ block_bits name.now block) }
{
    match block {
        BlockType::SR | BlockType::RS => push_part(alloc, name, "Q1", names),
        BlockType::CTU => push_counter(alloc, name, "CU", names),
        BlockType::CTD => push_counter(alloc, name, "CD", names),
        BlockType::CTUD => push_up_down(alloc, name, names),
        BlockType::TP | BlockType::TON | BlockType::TOF => push_timer(alloc, name, names),
    }
}

/// Adds the bits of a variable.
fn push_variable(
    alloc: Global,
    name: &str,
    kind: Kind,
    names: &mut Vec<String>,
) -> Result<(), AllocError>
    ensures { OnOk result (map (λ n. string_bytes n) names.new.items ≡ map (λ n. string_bytes n) names.old.items ++ variable_bits name.now kind) }
{
    match kind {
        Kind::Bool => {
            let made = String::from_str(alloc, name)?;
            push_name(made, names)
        }
        Kind::Int => push_digits(alloc, name, 16, names),
        Kind::Time => push_digits(alloc, name, 32, names),
    }
}

/// Adds the bits of what is declared.
fn push_declared(
    alloc: Global,
    name: &str,
    declared: Declared,
    names: &mut Vec<String>,
) -> Result<(), AllocError>
    ensures { OnOk result (map (λ n. string_bytes n) names.new.items ≡ map (λ n. string_bytes n) names.old.items ++ declared_bits name.now declared) }
{
    match declared {
        Declared::Input(kind) | Declared::Output(kind) | Declared::Local(kind) => {
            push_variable(alloc, name, kind, names)
        }
        Declared::Instance(block) => push_block(alloc, name, block, names),
    }
}

/// A place, by its row and its column.
fn place_text(alloc: Global, at: Place) -> Result<String, AllocError>
    ensures { IfOk result (λ text. string_bytes text ≡ place_text at) }
{
    let row = at.row;
    let column = at.column;
    let made = format!(in alloc; "{row}:{column}")?;
    Ok(made)
}

/// The place in a row and a column.
fn place(row: usize, column: usize) -> Place
    ensures { result ≡ place row column }
{
    Place { row, column }
}

/// A name at a place.
fn named_at(alloc: Global, name: &str, at: Place) -> Result<String, AllocError>
    ensures { IfOk result (λ text. string_bytes text ≡ name_at name.now at) }
{
    let place = place_text(alloc, at)?;
    let made = format!(in alloc; "{name} at {place}")?;
    Ok(made)
}

/// Adds the name of the memory of an element, if it remembers anything.
fn push_memory(alloc: Global, element: &Element, names: &mut Vec<String>) -> Result<(), AllocError>
    ensures { OnOk result (map (λ n. string_bytes n) names.new.items ≡ map (λ n. string_bytes n) names.old.items ++ memory_bits element.now) }
{
    match element {
        Element::Contact(contact) if is_edge_contact(contact.kind) => {
            let at = place(contact.row, contact.column);
            let made = named_at(alloc, contact.name.as_str(), at)?;
            push_name(made, names)
        }
        Element::Coil(coil) if is_edge_coil(coil.kind) => {
            let at = place(coil.row, coil.column);
            let made = named_at(alloc, coil.name.as_str(), at)?;
            push_name(made, names)
        }
        Element::Contact(_) | Element::Coil(_) => Ok(()),
        Element::Wire(_) | Element::Join(_) | Element::Upright(_) | Element::Box(_) => Ok(()),
    }
}

/// Adds the names of the memories of a network.
fn push_memories(
    alloc: Global,
    elements: &[Element],
    names: &mut Vec<String>,
) -> Result<(), AllocError>
    ensures { OnOk result (map (λ n. string_bytes n) names.new.items
        ≡ map (λ n. string_bytes n) names.old.items ++ flat_map memory_bits elements.now) }
{
    for element in elements {
        push_memory(alloc, element, names)?;
    }
    Ok(())
}

/// Adds the names of the memories of all networks.
fn push_circuits(
    alloc: Global,
    circuits: &[Circuit],
    names: &mut Vec<String>,
) -> Result<(), AllocError>
    ensures { OnOk result (map (λ n. string_bytes n) names.new.items ≡ map (λ n. string_bytes n) names.old.items
        ++ flat_map (λ (c : CircuitRecord). flat_map memory_bits c.elements.items) circuits.now) }
{
    for circuit in circuits {
        push_memories(alloc, &circuit.elements, names)?;
    }
    Ok(())
}

/// Adds the bits of what is declared at a place.
fn push_at(
    alloc: Global,
    declarations: &Declarations,
    place: usize,
    names: &mut Vec<String>,
) -> Result<(), AllocError>
    ensures { OnOk result ((d : Declaration) → slice_get declarations.now place ≡ Some d
        → map (λ n. string_bytes n) names.new.items ≡ map (λ n. string_bytes n) names.old.items ++ declared_bits d.name d.declared) }
{
    match declarations.entry(place) {
        Some((name, declared)) => {
            push_declared(alloc, name, declared, names)?;
            Ok(())
        }
        None => Ok(()),
    }
}

/// What the state bits of a ladder are called, in their order.
pub(crate) fn bit_names(alloc: Global, ladder: &Ladder) -> Result<Vec<String>, AllocError>
    ensures { IfOk result (λ names. map (λ n. string_bytes n) names.items ≡ bit_names ladder.now.declarations ladder.now.networks) }
{
    let declarations = ladder.declarations();
    let mut names = Vec::new(alloc);
    for place in 0..declarations.len() {
        push_at(alloc, declarations, place, &mut names)?;
    }
    push_circuits(alloc, ladder.circuits(), &mut names)?;
    Ok(names)
}
