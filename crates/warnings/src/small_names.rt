//! Names in small letters.

ghost use Rattle.std.specs.Prelude.{◌≡◌, ◌++◌, ◌∷◌, [], ℕ, List, IfOk, OnOk, string_bytes, map};
ghost use Rattle.warnings.specs.Found.{small};
ghost use Rattle.warnings.specs.Steps.NameSets.{AreSmall, AnswerAsSmall};

use crate::small_name::SmallName;
use std::alloc::{AllocError, Global};
use std::collections::BTreeSet;

/// A name in small letters.
pub fn small(alloc: Global, name: &str) -> Result<String, AllocError>
    ensures { IfOk result (λ s. string_bytes s ≡ small name.now) }
{
    let mut letters = String::from_str(alloc, name)?;
    letters.make_ascii_lowercase();
    Ok(letters)
}

/// Each of these names in small letters, once.
pub fn small_names(alloc: Global, names: &[&str]) -> Result<BTreeSet<String>, AllocError>
    ensures { IfOk result (AreSmall (map (λ n. n.now) names.now)) }
{
    let mut set = BTreeSet::new(alloc);
    for name in names {
        let _ = set.insert(small(alloc, name)?)?;
    }
    Ok(set)
}

/// Adds a name in small letters, unless it was seen.
fn push_small(
    seen: &mut BTreeSet<String>,
    all: &mut Vec<SmallName>,
    name: &str,
) -> Result<(), AllocError>
    ensures { (names : List (List ℕ)) → AreSmall names seen.old → AnswerAsSmall names all.old.items
        → OnOk result (AreSmall (names ++ name.now ∷ []) seen.new × AnswerAsSmall (names ++ name.now ∷ []) all.new.items) }
{
    let alloc = *all.allocator();
    let letters = small(alloc, name)?;
    if seen.contains(letters.as_str()) {
        return Ok(());
    }
    let _ = seen.insert(letters)?;
    all.push(SmallName::of(alloc, name)?)?;
    Ok(())
}

/// Each of these names in small letters, once.
pub fn all_small(alloc: Global, names: &[&str]) -> Result<Vec<SmallName>, AllocError>
    ensures { IfOk result (λ all. AnswerAsSmall (map (λ n. n.now) names.now) all.items) }
{
    let mut seen = BTreeSet::new(alloc);
    let mut all = Vec::new(alloc);
    for name in names {
        push_small(&mut seen, &mut all, name)?;
    }
    Ok(all)
}
