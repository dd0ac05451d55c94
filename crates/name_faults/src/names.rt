ghost use Rattle.std.specs.Prelude.{◌≡◌, [], position};
ghost use Rattle.std.specs.Bool.{OnFalse};
ghost use Rattle.std.specs.List.{before_first, after_first};
ghost use Rattle.declared_names.specs.Names.{is_dot};
ghost use Rattle.name_faults.specs.Lookup.{declared_at};

use declared_names::{Declarations, Declared};
use words::Text;

/// Where a dot stands in a name.
fn dot_in(name: &[u8]) -> Option<usize>
    ensures { result ≡ position is_dot name.now }
{
    name.iter().position(|letter| *letter == b'.')
}

/// Whether a dot stands in a name.
fn has_dot(name: &[u8]) -> bool
    ensures first { OnFalse result (before_first is_dot name.now ≡ name.now) }
    ensures second { OnFalse result (after_first is_dot name.now ≡ []) }
{
    dot_in(name).is_some()
}

/// The two parts of a name at its dot; the second is empty where it has none.
pub fn parts(name: &Text) -> (&[u8], &str)
    ensures first { result.0.now ≡ before_first is_dot name.now }
    ensures second { result.1.now ≡ after_first is_dot name.now }
{
    let letters = name.as_bytes();
    if !has_dot(letters) {
        return (letters, "");
    }
    match name.as_str().split_once('.') {
        Some((first, second)) => (first.as_bytes(), second),
        None => (letters, ""),
    }
}

/// What is declared at a name.
#[tactic(auto, unfolding(crate::specs::Lookup::declared_at))]
pub fn declared_at(declarations: &Declarations, name: &[u8]) -> Option<Declared>
    ensures { result ≡ declared_at declarations.now name.now }
{
    let place = declarations.position_of(name)?;
    declarations.declared_at(place)
}
