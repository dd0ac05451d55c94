//! Contacts with a name that is most likely mistyped.

ghost use Rattle.std.specs.Prelude.{◌≡◌, ◌++◌, ◌&&◌, not, OnOk, IfOk, ℕ, List, map};
ghost use Rattle.std.specs.BTreeSet.{contains_text};
ghost use Rattle.std.specs.List.{list_any};
ghost use Rattle.warnings.specs.Near.{is_near};
ghost use Rattle.warnings.specs.Found.{is_undotted, is_mistyped, mistyped_at, mistyped};
ghost use Rattle.warnings.specs.Steps.NameSets.{AreSmall, AnswerAsSmall, is_strange, ArePlain};

use crate::names::{NameUse, names_of};
use crate::small_name::SmallName;
use crate::small_names::{all_small, small_names};
use crate::warning::{Warning, WarningKind};
use drawings::{Contact, Place};
use network::Element;
use std::alloc::{AllocError, Global};
use std::collections::BTreeSet;

fn is_undotted(name: &[u8]) -> bool
    ensures { result ≡ is_undotted name.now }
{
    !name.contains(&b'.')
}

/// Whether a name is nearly one of these.
fn is_near_any(name: &SmallName, names: &[SmallName]) -> bool
    ensures { result ≡ list_any (is_near name.now) names.now }
{
    names.iter().any(|other| name.is_near(other))
}

/// Whether a name in small letters is none of those that something stores into, and nearly one of all.
fn is_strange(name: &SmallName, stored: &BTreeSet<String>, names: &[SmallName]) -> bool
    ensures { result ≡ is_strange stored.now names.now name.now }
{
    !stored.contains(name.letters()) && is_near_any(name, names)
}

/// Whether a name in small letters is strange. One that isn't comes to the plain ones, of which none is asked for again.
fn is_strange_cached(
    name: SmallName,
    stored: &BTreeSet<String>,
    names: &[SmallName],
    plain: &mut BTreeSet<String>,
) -> Result<bool, AllocError>
    ensures told { ArePlain stored.now names.now plain.old → IfOk result (λ r. r ≡ is_strange stored.now names.now name) }
    ensures plain { ArePlain stored.now names.now plain.old → OnOk result (ArePlain stored.now names.now plain.new) }
{
    if plain.contains(name.letters()) {
        return Ok(false);
    }
    if is_strange(&name, stored, names) {
        return Ok(true);
    }
    let _ = plain.insert(name.into_letters())?;
    Ok(false)
}

/// Whether a contact's name is most likely mistyped, by the names that something stores into and by all names.
fn is_mistyped(
    alloc: Global,
    contact: &Contact,
    stored: &BTreeSet<String>,
    names: &[SmallName],
    plain: &mut BTreeSet<String>,
) -> Result<bool, AllocError>
    ensures plain { ArePlain stored.now names.now plain.old → OnOk result (ArePlain stored.now names.now plain.new) }
    ensures told { (xs ys : List (List ℕ)) → AreSmall xs stored.now → AnswerAsSmall ys names.now → ArePlain stored.now names.now plain.old → IfOk result (λ r. r ≡ is_mistyped contact.now.name xs ys) }
{
    if !is_undotted(contact.name.as_bytes()) {
        return Ok(false);
    }
    let name = SmallName::of(alloc, contact.name.as_str())?;
    let strange = is_strange_cached(name, stored, names, plain)?;
    Ok(strange)
}

/// Warns of an element that is a contact with a name most likely mistyped.
fn push_mistyped(
    warnings: &mut Vec<Warning>,
    first_line: u64,
    element: &Element,
    stored: &BTreeSet<String>,
    names: &[SmallName],
    plain: &mut BTreeSet<String>,
) -> Result<(), AllocError>
    ensures plain { ArePlain stored.now names.now plain.old → OnOk result (ArePlain stored.now names.now plain.new) }
    ensures told { (xs ys : List (List ℕ)) → AreSmall xs stored.now → AnswerAsSmall ys names.now → ArePlain stored.now names.now plain.old → OnOk result (warnings.new.items ≡ warnings.old.items ++ mistyped_at first_line xs ys element.now) }
{
    let alloc = *warnings.allocator();
    let Element::Contact(contact) = element else {
        return Ok(());
    };
    if is_mistyped(alloc, contact, stored, names, plain)? {
        let place = Place {
            row: contact.row,
            column: contact.column,
        };
        warnings.push(Warning::at(WarningKind::MistypedContact, first_line, place))?;
    }
    Ok(())
}

/// The contacts with a name that is most likely mistyped.
pub fn mistyped(
    alloc: Global,
    first_line: u64,
    elements: &[&Element],
) -> Result<Vec<Warning>, AllocError>
    ensures { IfOk result (λ found. found.items ≡ mistyped first_line (map (λ e. e.now) elements.now)) }
{
    let stored = small_names(alloc, &names_of(alloc, NameUse::Stored, elements)?)?;
    let names = all_small(alloc, &names_of(alloc, NameUse::Any, elements)?)?;
    let mut plain = BTreeSet::new(alloc);
    let mut found = Vec::new(alloc);
    for element in elements {
        push_mistyped(&mut found, first_line, element, &stored, &names, &mut plain)?;
    }
    Ok(found)
}
