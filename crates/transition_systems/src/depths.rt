ghost use Rattle.std.specs.Prelude.{◌≡◌, length, OnOk};
ghost use Rattle.transition_systems.specs.Systems.{IsWhole, NeverBadWithin};
ghost use Rattle.transition_systems.specs.Steps.Depths.{clauses_or};

use crate::certificate::Certificate;
use crate::certificate_fault::CertificateFault;
use crate::checking::check_step;
use crate::first_state::hold_of;
use crate::shape::is_whole;
use crate::system::TransitionSystem;
use clauses::Literal;
use std::alloc::Global;

/// The clauses of a depth, behind the last these.
fn clauses_or<'a>(
    depths: &'a [Certificate],
    number: usize,
    none: &'a [Vec<Literal>],
) -> &'a [Vec<Literal>]
    ensures { result.now ≡ clauses_or depths.now number none.now }
{
    match depths.get(number) {
        Some(depth) => depth.clauses.as_slice(),
        None => none,
    }
}

/// Checks that certificates, one for each depth, show that no run of so many rows or fewer is bad: the clauses of the first hold
/// of the first state; where those of one hold of a state and the row keeps the constraint, those of the next one hold of the
/// next state, and this one isn't bad. So `kept` of each tells of the clauses of the next one, and of the last of none.
pub fn check_depths(
    alloc: Global,
    system: &TransitionSystem,
    depths: &[Certificate],
) -> Result<(), CertificateFault>
    ensures whole { OnOk result (IsWhole system.now) }
    ensures never { OnOk result (NeverBadWithin system.now (length depths.now)) }
{
    if !is_whole(system) {
        return Err(CertificateFault::NotWhole);
    }
    let none = Vec::new(alloc);
    let first = clauses_or(depths, 0, none.as_slice());
    if !hold_of(first, system.first.as_slice()) {
        return Err(CertificateFault::NotAtFirst);
    }
    for (number, depth) in depths.iter().enumerate() {
        let next = clauses_or(depths, number + 1, none.as_slice());
        check_step(alloc, system, depth, next)?;
    }
    Ok(())
}
