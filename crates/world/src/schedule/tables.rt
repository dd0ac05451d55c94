//! What is known by the entries so far, so that they needn't be read again.

ghost use Rattle.std.specs.Prelude.{◌≡◌, ◌<◌, IfOk, OnOk, length};
ghost use Rattle.book.specs.Book.{BookValue};
ghost use Rattle.world.specs.Steps.Tables.{SeesMore, AreUnseen, Tells, TellsOneMore};

use crate::schedule::last_takes::{LastTake, note_takes};
use book::raise_present;
use evaluation::{Evaluation, Name, Take};
use std::alloc::{AllocError, Global};

/// What is known of a resource by its entries so far.
#[derive(Drop)]
pub struct Seen {
    /// Where its newest entry stands.
    pub newest: Option<usize>,
    /// What it took last of each producer.
    pub taken: Vec<LastTake>,
}

/// What is known by the entries so far.
#[derive(Drop)]
pub struct Tables {
    /// The present incarnation of each resource.
    pub present: Vec<u32>,
    /// What is known of each resource.
    pub seen: Vec<Seen>,
}

/// Nothing of so many resources.
fn none_seen(alloc: Global, resources: usize) -> Result<Vec<Seen>, AllocError>
    ensures { IfOk result (λ seen. AreUnseen resources seen.items) }
{
    let mut seen = Vec::with_capacity(alloc, resources)?;
    for _resource in 0..resources {
        seen.push(Seen {
            newest: None,
            taken: Vec::new(alloc),
        })?;
    }
    Ok(seen)
}

/// Notes one entry more of a resource, which stands at this index.
fn note_in(seen: &mut Seen, name: Name, takes: &[Take], index: usize) -> Result<(), AllocError>
    ensures { OnOk result (SeesMore seen.old seen.new name takes.now index) }
{
    note_takes(&mut seen.taken, name.incarnation, takes)?;
    seen.newest = Some(index);
    Ok(())
}

impl Tables {
    /// The tables of no entries. The resources begin in these incarnations.
    pub fn new(alloc: Global, first: &[u32]) -> Result<Tables, AllocError>
        ensures { (book : BookValue) → book.first ≡ first.now → IfOk result (Tells book 0) }
    {
        Ok(Tables {
            present: Vec::from_slice(alloc, first)?,
            seen: none_seen(alloc, first.len())?,
        })
    }

    /// Notes one entry more, which stands at this index.
    pub fn note(&mut self, evaluation: &Evaluation, index: usize) -> Result<(), AllocError>
        requires { evaluation.now.name.task.resource < length self.old.seen.items }
        ensures { OnOk result (TellsOneMore self.old self.new evaluation.now index) }
    {
        let name = evaluation.name();
        let seen = &mut self.seen[name.task.resource];
        note_in(seen, name, evaluation.takes(), index)?;
        raise_present(&mut self.present, evaluation);
        Ok(())
    }
}
