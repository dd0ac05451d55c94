//! The names of two drawings.

ghost use Rattle.std.specs.Prelude.{◌≡◌, ◌↔◌, IfOk, OnOk, IsTrue};
ghost use Rattle.text_commands.specs.SecondDrawing.{IsBoxName, as_input, joined_names, seen_names, with_name};

use declared_names::{Declarations, Declared};
use std::alloc::{AllocError, Global};
use words::Text;

/// What a name of the first drawing is to the second: a variable is an input.
fn as_input(declared: Declared) -> Declared
    ensures { result ≡ as_input declared }
{
    match declared {
        Declared::Input(kind) | Declared::Output(kind) | Declared::Local(kind) => Declared::Input(
            kind,
        ),
        Declared::Instance(block) => Declared::Instance(block),
    }
}

/// The names of the first drawing, as the second sees them. They are declared already, so they are refused only for want of
/// memory.
pub(crate) fn seen_names(
    alloc: Global,
    declarations: &Declarations,
) -> Result<Declarations, AllocError>
    ensures { IfOk result (λ seen. seen ≡ seen_names declarations.now) }
{
    let mut seen = Declarations::new(alloc);
    for place in 0..declarations.len() {
        let Some((name, declared)) = declarations.entry(place) else {
            return Err(AllocError);
        };
        match seen.add(name, as_input(declared)) {
            Ok(()) => {}
            Err(_) => return Err(AllocError),
        }
    }
    Ok(seen)
}

/// Declares a name behind others, if it isn't among them.
fn add_name(
    declarations: &mut Declarations,
    name: &str,
    declared: Declared,
) -> Result<(), AllocError>
    ensures { OnOk result
        (declarations.new ≡ with_name declarations.old (record { name = name.now; declared = declared })) }
{
    if declarations.position(name).is_some() {
        return Ok(());
    }
    declarations.push(name, declared)
}

/// Declares behind names those of others that aren't among them.
pub(crate) fn add_names(
    declarations: &mut Declarations,
    others: &Declarations,
) -> Result<(), AllocError>
    ensures { OnOk result (declarations.new ≡ joined_names declarations.old others.now) }
{
    for place in 0..others.len() {
        let Some((name, declared)) = others.entry(place) else {
            return Err(AllocError);
        };
        add_name(declarations, name, declared)?;
    }
    Ok(())
}

/// Whether a name is that of a box.
pub(crate) fn is_box_name(declarations: &Declarations, name: &Text) -> bool
    ensures { IsTrue result ↔ IsBoxName declarations.now name.now }
{
    match declarations.position_of(name.as_bytes()) {
        Some(place) => matches!(declarations.declared_at(place), Some(Declared::Instance(_))),
        None => false,
    }
}
