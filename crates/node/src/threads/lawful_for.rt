ghost use Rattle.std.specs.Prelude.{◌≡◌};
ghost use Rattle.node_reports.specs.Journals.{IsLawful};
ghost use Rattle.node.specs.Steps.Keeping.{IsLeftKept};
ghost use Rattle.node.specs.Steps.States.{journal_of};

use crate::threads::ended::Ended;
use crate::threads::worker_state::WorkerState;
use keepers::Keeper;
use plant::Plant;
use std::snapshot::Snapshot;
use std::thread::Promise;

/// That the journal which a thread leaves is lawful for this plant, these first incarnations and this limit, and begins in this incarnation, and with the values with which the resource began; and that its keeper keeps what is left.
#[derive(Drop)]
pub(crate) struct LawfulFor<'a> {
    pub plant: &'a Plant,
    pub firsts: &'a [u32],
    pub max_number: u32,
    pub first: u32,
    pub began: Snapshot<WorkerState>,
}

impl<'a, K: Keeper> Promise<Ended<K>> for LawfulFor<'a> {
    ghost kept_by = { λ p r. IsLawful p.plant.now p.firsts.now p.max_number r.journal × (r.journal.first ≡ p.first)
        × (r.journal.opening ≡ (journal_of p.began.value).opening)
        × IsLeftKept K.last K.kept_gives p.plant.now r };
}
