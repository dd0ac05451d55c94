//! Coils that another coil overwrites.

ghost use Rattle.std.specs.Prelude.{◌≡◌, ◌++◌, ◌||◌, IfOk, OnOk, ℕ, List, map};
ghost use Rattle.std.specs.BTreeSet.{contains_text};
ghost use Rattle.std.specs.Str.{bytes_eq};
ghost use Rattle.warnings.specs.Found.{small, stores_always, doubles};
ghost use Rattle.warnings.specs.Steps.Stored.{TakesStored, double_with};

use crate::small_names::small;
use crate::warning::{Warning, WarningKind};
use drawings::{Coil, CoilKind, Place};
use network::Element;
use std::alloc::{AllocError, Global};
use std::collections::BTreeSet;

/// Whether a coil stores in each scan, whatever arrives.
fn stores_always(kind: CoilKind) -> bool
    ensures { result ≡ stores_always kind }
{
    match kind {
        CoilKind::Plain | CoilKind::Negated | CoilKind::Rise | CoilKind::Fall => true,
        CoilKind::Set | CoilKind::Reset => false,
    }
}

/// Takes a coil's name; whether it was there.
fn take_name(alloc: Global, stored: &mut BTreeSet<String>, coil: &Coil) -> Result<bool, AllocError>
    ensures was { IfOk result (λ was. was ≡ contains_text stored.old (small coil.now.name)) }
    ensures takes { OnOk result ((q : List ℕ) → contains_text stored.new q ≡ (bytes_eq (small coil.now.name) q || contains_text stored.old q)) }
{
    let name = small(alloc, coil.name.as_str())?;
    let is_new = stored.insert(name)?;
    Ok(!is_new)
}

/// Warns of an element that is a coil whose variable a later one stores into, and takes what it stores itself.
fn push_double(
    stored: &mut BTreeSet<String>,
    warnings: &mut Vec<Warning>,
    first_line: u64,
    element: &Element,
) -> Result<(), AllocError>
    ensures told { OnOk result (warnings.new.items ≡ warnings.old.items ++ double_with first_line element.now stored.old) }
    ensures takes { OnOk result (TakesStored stored.old element.now stored.new) }
{
    let alloc = *warnings.allocator();
    let Element::Coil(coil) = element else {
        return Ok(());
    };
    if stores_always(coil.kind) && take_name(alloc, stored, coil)? {
        let place = Place {
            row: coil.row,
            column: coil.column,
        };
        warnings.push(Warning::at(WarningKind::DoubleCoil, first_line, place))?;
    }
    Ok(())
}

/// The coils that a later one overwrites, of elements in the order of their evaluation.
pub fn doubles(
    alloc: Global,
    first_line: u64,
    elements: &[&Element],
) -> Result<Vec<Warning>, AllocError>
    ensures { IfOk result (λ found. found.items ≡ doubles first_line (map (λ e. e.now) elements.now)) }
{
    let mut stored = BTreeSet::new(alloc);
    let mut found = Vec::new(alloc);
    let mut k = elements.len();
    while k > 0 {
        k -= 1;
        push_double(&mut stored, &mut found, first_line, elements[k])?;
    }
    found.reverse();
    Ok(found)
}
