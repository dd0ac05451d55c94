//! The places of names, and which of them matter.

ghost use Rattle.std.specs.Prelude.{◌≡◌, ◌↔◌, IsTrue, false, slice_index_or};
ghost use Rattle.std.specs.List.{before_first};
ghost use Rattle.declared_names.specs.Names.{is_dot, place_of};
ghost use Rattle.needed_networks.specs.Steps.Placing.{IsIdleAt, MattersAt};

use declared_names::Declarations;
use name_faults::parts;
use words::Text;

/// The place of a name, or of the part of it before a dot.
pub(crate) fn read_place(declarations: &Declarations, name: &Text) -> Option<usize>
    ensures { result ≡ place_of declarations.now (before_first is_dot name.now) }
{
    declarations.position_of(parts(name).0)
}

/// The place of a name.
pub(crate) fn place_of(declarations: &Declarations, name: &Text) -> Option<usize>
    ensures { result ≡ place_of declarations.now name.now }
{
    declarations.position_of(name.as_bytes())
}

/// Whether a place has a mark, or what has a number.
pub(crate) fn has_mark(marks: &[bool], number: usize) -> bool
    ensures { result ≡ slice_index_or marks.now number false }
{
    marks.get(number).copied().unwrap_or(false)
}

/// Whether the place, if there is one, matters.
pub(crate) fn matters(idle: &[bool], place: Option<usize>) -> bool
    ensures { IsTrue result ↔ MattersAt idle.now place }
{
    match place {
        Some(place) => !has_mark(idle, place),
        None => true,
    }
}

/// Whether the place, if there is one, doesn't matter.
pub(crate) fn is_idle(idle: &[bool], place: Option<usize>) -> bool
    ensures { IsTrue result ↔ IsIdleAt idle.now place }
{
    match place {
        Some(place) => has_mark(idle, place),
        None => true,
    }
}
