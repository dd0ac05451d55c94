ghost use Rattle.std.specs.Prelude.{◌≡◌, All, IfOk, IfErr, OnOk, false};
ghost use Rattle.plant.specs.PlantValue.{PlantValue};
ghost use Rattle.node_reports.specs.RunFaults.{IsStartFault};
ghost use Rattle.node.specs.Keeping.{KeepAllLeft};
ghost use Rattle.node.specs.Steps.Keeping.{IsLeftKept, TellsMore};
ghost use Rattle.node.specs.Steps.Working.{journals_of_ended};

use crate::threads::ended::Ended;
use crate::threads::noted::Noted;
use crate::threads::parted::Parted;
use keepers::Keeper;
use node_reports::{NodeFault, RunFault};
use std::alloc::Global;

/// Appends the faults that were noted. Memory: one was lost.
#[tactic(auto, using(crate::proofs::Noting::more_same, crate::proofs::Noting::taken_none, crate::proofs::Noting::more_pushed, crate::proofs::Noting::taken_pushed, crate::proofs::Noting::taken_all))]
fn append(faults: &mut Vec<NodeFault>, more: &Noted) -> Result<(), RunFault>
    ensures before { OnOk result (TellsMore faults.old.items faults.new.items) }
    ensures noted { OnOk result (TellsMore more.now.listed.items faults.new.items) }
    ensures whole { OnOk result (more.now.is_lost ≡ false) }
    ensures fault { IfErr result IsStartFault }
{
    if more.is_lost {
        return Err(RunFault::Memory);
    }
    for k in 0..more.listed.len() {
        faults.push(more.listed[k])?;
    }
    Ok(())
}

/// Parts what the threads left into the journals and the keepers, in order, and the faults, behind those that were noted before. Memory: a fault was lost.
pub(crate) fn part<K: Keeper>(
    alloc: Global,
    ended: Vec<Ended<K>>,
    noted: Noted,
) -> Result<Parted<K>, RunFault>
    ensures journals { IfOk result (λ parted. parted.journals.items ≡ journals_of_ended ended.items) }
    ensures keeps { IfOk result (λ parted. (plant : PlantValue) → All (IsLeftKept K.last K.kept_gives plant) ended.items
        → KeepAllLeft K.last K.kept_gives plant parted.faults.items parted.keepers.items parted.journals.items) }
    ensures fault { IfErr result IsStartFault }
{
    let mut journals = Vec::new(alloc);
    let mut keepers = Vec::new(alloc);
    let mut faults = Vec::new(alloc);
    append(&mut faults, &noted)?;
    for one in ended {
        let Ended {
            journal,
            noted,
            keeper,
        } = one;
        append(&mut faults, &noted)?;
        let Ok(()) = journals.push(journal) else {
            return Err(RunFault::Memory);
        };
        let Ok(()) = keepers.push(keeper) else {
            return Err(RunFault::Memory);
        };
    }
    Ok(Parted {
        journals,
        keepers,
        faults,
    })
}
