use crate::gate::Gate;
use crate::threads::inbox::Inbox;
use crate::threads::of_plant::OfPlant;
use crate::threads::plant_book::PlantBook;
use crossbeam_channel::Sender;
use node_reports::Command;
use plant::Plant;
use std::sync::Mutex;

/// What all threads of a run share.
#[derive_where(Clone, Copy)]
pub(crate) struct Desk<'a, G: Gate, P: OfPlant> {
    pub plant: &'a Plant,
    /// Of each resource the first incarnation.
    pub firsts: &'a [u32],
    /// All commands of the run. A thread is told the places of its own.
    pub commands: &'a [Command],
    pub book: &'a Mutex<PlantBook<P>>,
    pub gate: &'a G,
    /// One for each resource, in order.
    pub doors: &'a [Sender<Inbox>],
}
