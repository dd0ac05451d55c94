ghost use Rattle.std.specs.Prelude.{◌≡◌, ◌↔◌, IsTrue, length, map, slice_get};
ghost use Rattle.std.specs.Option.{option_map};
ghost use Rattle.task_codes.specs.CodeValue.{bindings_at, expected_at, IsSoundCode};

use crate::binding::Binding;
use crate::task_code::TaskCode;
use crate::task_ref::TaskRef;
use declared_names::Kind;
use power_flow::Ladder;

fn are_same_bindings(bindings: &[Binding], others: &[Binding]) -> bool
    ensures { IsTrue result ↔ (bindings.now ≡ others.now) }
{
    bindings == others
}

fn are_same_tasks(tasks: &[TaskRef], others: &[TaskRef]) -> bool
    ensures { IsTrue result ↔ (tasks.now ≡ others.now) }
{
    tasks == others
}

fn are_same_kinds(kinds: &[Kind], others: &[Kind]) -> bool
    ensures { IsTrue result ↔ (kinds.now ≡ others.now) }
{
    kinds == others
}

fn are_same_names(name: Option<&str>, other: Option<&str>) -> bool
    ensures { IsTrue result ↔ (option_map (λ n. n.now) name.entry ≡ option_map (λ n. n.now) other.entry) }
{
    match (name, other) {
        (Some(name), Some(other)) => name.as_bytes() == other.as_bytes(),
        (None, None) => true,
        _ => false,
    }
}

fn are_same_ladders(ladder: Option<&Ladder>, other: Option<&Ladder>) -> bool
    ensures { IsTrue result ↔ (option_map (λ l. l.now) ladder.entry ≡ option_map (λ l. l.now) other.entry) }
{
    match (ladder, other) {
        (Some(ladder), Some(other)) => ladder.same(other),
        (None, None) => true,
        _ => false,
    }
}

fn are_same_places(places: Option<&[usize]>, other: Option<&[usize]>) -> bool
    ensures { IsTrue result ↔ (option_map (λ l. l.now) places.entry ≡ option_map (λ l. l.now) other.entry) }
{
    match (places, other) {
        (Some(places), Some(other)) => places == other,
        (None, None) => true,
        _ => false,
    }
}

/// Whether both run the same program at a position, or none.
fn have_same_program(code: &TaskCode, other: &TaskCode, i: usize) -> bool
    ensures { IsTrue result ↔ (slice_get code.now.programs i ≡ slice_get other.now.programs i) }
{
    are_same_names(code.program_name(i), other.program_name(i))
        && are_same_ladders(code.ladder(i), other.ladder(i))
        && are_same_places(code.retained_places(i), other.retained_places(i))
}

fn have_same_programs(code: &TaskCode, other: &TaskCode) -> bool
    ensures same { IsTrue result ↔ (code.now.programs ≡ other.now.programs) }
    ensures code { IsSoundCode code.now }
    ensures other { IsSoundCode other.now }
{
    if code.programs() != other.programs() {
        return false;
    }
    for i in 0..code.programs() {
        if !have_same_program(code, other, i) {
            return false;
        }
    }
    true
}

fn have_same_bindings(code: &TaskCode, other: &TaskCode) -> bool
    ensures { IsTrue result ↔ (code.now.bindings ≡ other.now.bindings) }
{
    if code.programs() != other.programs() {
        return false;
    }
    for i in 0..code.programs() {
        if !are_same_bindings(code.bindings(i), other.bindings(i)) {
            return false;
        }
    }
    true
}

fn have_same_expected(code: &TaskCode, other: &TaskCode) -> bool
    requires code { IsSoundCode code.now }
    requires other { IsSoundCode other.now }
    ensures { IsTrue result ↔ (code.now.expected ≡ other.now.expected) }
{
    if code.producers().len() != other.producers().len() {
        return false;
    }
    for k in 0..code.producers().len() {
        if !are_same_kinds(code.expected(k), other.expected(k)) {
            return false;
        }
    }
    true
}

impl TaskCode {
    /// Whether both run the same programs with the same bound inputs and retained variables, and take from the same tasks the same kinds.
    pub fn same(&self, other: &Self) -> bool
        ensures { IsTrue result ↔ (self.now ≡ other.now) }
    {
        have_same_programs(self, other)
            && have_same_bindings(self, other)
            && are_same_tasks(self.producers(), other.producers())
            && have_same_expected(self, other)
    }
}
