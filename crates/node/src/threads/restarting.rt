ghost use Rattle.std.specs.Prelude.{◌≡◌, ℕ, IfErr, OnOk, Ok};
ghost use Rattle.node.specs.declared.threads.noted.Noted.{Noted as NotedFaults};
ghost use Rattle.node.specs.Steps.Keeping.{Keeps};
ghost use Rattle.node.specs.Steps.States.{IsUnrisen, IsWorking, journal_of};

use crate::threads::worker_state::WorkerState;
use keepers::Keeper;
use node_reports::{Cause, Station};
use std::alloc::Global;

/// Raises the incarnation, and restarts. Where the core isn't restarted after that, the resource is stopped.
#[tactic(auto, using(crate::proofs::Kept::keeps_raised, crate::proofs::Kept::keeps_restarted))]
pub(crate) fn restart_station<K: Keeper>(
    alloc: Global,
    keeper: &mut K,
    station: Station,
    ticket: u64,
) -> (WorkerState, Result<(), Cause>)
    requires { K.last keeper.old ≡ station.core.incarnation }
    ensures working { IsWorking station.core.plant station.core.first station.core.max_number (K.last keeper.new) result.0 }
    ensures first { (journal_of result.0).first ≡ station.journal.first }
    ensures opening { (journal_of result.0).opening ≡ station.journal.opening }
    ensures keeps { (noted : NotedFaults) → Keeps (K.last keeper.old) (K.kept_gives keeper.old) station.core.plant noted station.journal
        → Keeps (K.last keeper.new) (K.kept_gives keeper.new) station.core.plant noted (journal_of result.0) }
    ensures cause { IfErr result.1 (IsUnrisen K.raise_gives keeper.old keeper.new result.0) }
    ensures given { OnOk result.1 ((i : ℕ) × K.raise_gives keeper.old (Ok i) × (K.last keeper.new ≡ i)) }
{
    let mut station = station;
    if station.make_room().is_err() {
        return (WorkerState::Running(station), Err(Cause::Memory));
    }
    let Ok(incarnation) = keeper.raise() else {
        return (WorkerState::Running(station), Err(Cause::Keeper));
    };
    match station.restart(alloc, ticket, incarnation) {
        Ok(station) => (WorkerState::Running(station), Ok(())),
        Err((station, _)) => (
            WorkerState::Stopped(station.into_journal()),
            Err(Cause::Memory),
        ),
    }
}
