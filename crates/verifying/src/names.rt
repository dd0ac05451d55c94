ghost use Rattle.std.specs.Prelude.{◌≡◌};
ghost use Rattle.verifying.specs.VerdictLines.{name_at};

use declared_names::Declarations;

/// The name that is declared at a place; an empty one where there is none.
pub(crate) fn name_at(declarations: &Declarations, place: usize) -> &str
    ensures { result.now ≡ name_at declarations.now place }
{
    match declarations.entry(place) {
        Some((name, _)) => name,
        None => "",
    }
}
