ghost use Rattle.std.specs.Prelude.{◌<◌, [], IfOk, OnOk, OnErr, length};
ghost use Rattle.book.specs.Steps.Ledger.{Tells, TellsOneMore, TellsAsBefore};

mod place;
mod places;
mod taker;
mod takers;
mod task_places;

use crate::book::ledger::places::add_place;
use crate::book::ledger::takers::{make_rows, note_takes};
use crate::present::raise_present;
use evaluation::Evaluation;
pub use place::Place;
pub use places::{find_place, last_place, places_of};
use std::alloc::{AllocError, Global};
pub use taker::Taker;
pub use takers::find_taker;
pub use task_places::TaskPlaces;

/// What a book keeps beside its entries, so that it needn't read them all.
#[derive(Drop)]
pub struct Ledger {
    /// The present incarnation of each resource.
    pub present: Vec<u32>,
    /// For each resource the place of its newest entry.
    pub newest: Vec<Option<usize>>,
    /// For each task the places of its entries.
    pub tasks: Vec<TaskPlaces>,
    /// For each resource and producer the newest entry that takes.
    pub takers: Vec<Taker>,
}

impl Ledger {
    /// The ledger of no entries.
    pub fn new(alloc: Global, first: &[u32]) -> Result<Ledger, AllocError>
        ensures { IfOk result (λ ledger. Tells first.now [] ledger) }
    {
        Ok(Ledger {
            present: Vec::from_slice(alloc, first)?,
            newest: vec![in alloc; None; first.len()]?,
            tasks: Vec::new(alloc),
            takers: Vec::new(alloc),
        })
    }

    /// Notes one entry more, which stands at this index. All growths come first; without memory the ledger tells the same as before.
    pub fn enter(&mut self, evaluation: &Evaluation, index: usize) -> Result<(), AllocError>
        requires present { evaluation.now.name.task.resource < length self.old.present.items }
        requires newest { evaluation.now.name.task.resource < length self.old.newest.items }
        ensures ok { OnOk result (TellsOneMore self.old self.new evaluation.now index) }
        ensures err { OnErr result (TellsAsBefore self.old self.new) }
    {
        let name = evaluation.name();
        let resource = name.task.resource;
        make_rows(&mut self.takers, resource, evaluation.takes())?;
        let place = Place {
            incarnation: name.incarnation,
            number: name.number,
            index,
        };
        add_place(&mut self.tasks, name.task, place)?;
        note_takes(
            self.takers.as_mut_slice(),
            resource,
            evaluation.takes(),
            index,
        );
        self.newest[resource] = Some(index);
        raise_present(&mut self.present, evaluation);
        Ok(())
    }
}
