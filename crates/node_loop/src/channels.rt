//! What is between the readers and the loop.

use crate::told::Told;
use crossbeam_channel::{Receiver, Sender};
use cycle::Origin;
use std::alloc::{AllocError, Global};
use std::sync::Wait;

/// How many lines of an input wait at most.
const WAITING: usize = 512;

/// A reader's end: what it hands on; the bell that wakes the loop; and what tells that the loop started, and then each time
/// that it took a line that waited alone.
#[derive(Drop)]
pub struct ReaderEnd {
    told: Sender<Told>,
    bell: Sender<()>,
    taken: Receiver<()>,
}

impl ReaderEnd {
    /// Waits until the loop starts; whether it does.
    pub(crate) fn is_started<R: Wait>(&self, rt: &R) -> bool {
        self.taken.recv(rt).is_ok()
    }

    /// Hands on what was read, and rings; whether somebody takes it. Where it is long it returns once it was taken.
    pub(crate) fn hand_on<R: Wait>(&self, rt: &R, told: Told) -> bool {
        let is_long = told.is_long();
        let is_handed = self.told.send(rt, told).is_ok();
        let _ = self.bell.try_send(rt, ());
        is_handed && (!is_long || self.taken.recv(rt).is_ok())
    }
}

/// The ends of the readers of both inputs.
#[derive(Drop)]
pub struct ReaderEnds {
    neighbours: ReaderEnd,
    field: ReaderEnd,
}

impl ReaderEnds {
    /// The end of the reader of standard input, which is this input's, and the one of the other input.
    pub fn with_standard(self, standard: Origin) -> (ReaderEnd, ReaderEnd) {
        let ReaderEnds { neighbours, field } = self;
        match standard {
            Origin::Neighbours => (neighbours, field),
            Origin::Field => (field, neighbours),
        }
    }
}

/// The loop's end of an input.
#[derive(Drop)]
pub(crate) struct LoopEnd {
    told: Receiver<Told>,
    taken: Sender<()>,
}

impl LoopEnd {
    /// Lets the reader begin, if there is one.
    pub(crate) fn start<R: Wait>(&self, rt: &R) {
        let _ = self.taken.send(rt, ());
    }

    /// Takes what waits first, if something does.
    pub(crate) fn take<R: Wait>(&self, rt: &R) -> Option<Told> {
        let Ok(told) = self.told.try_recv(rt) else {
            return None;
        };
        if told.is_long() {
            let _ = self.taken.send(rt, ());
        }
        Some(told)
    }
}

/// The loop's ends of both inputs. It has an end of the bell that nobody rings, so that the bell is there when the readers
/// have ended.
#[derive(Drop)]
pub struct LoopEnds {
    pub(crate) neighbours: LoopEnd,
    pub(crate) field: LoopEnd,
    pub(crate) bell: Receiver<()>,
    pub(crate) kept: Sender<()>,
}

/// The ends of an input whose reader rings this bell.
fn ends_of(alloc: Global, bell: Sender<()>) -> Result<(LoopEnd, ReaderEnd), AllocError> {
    let (to, from) = crossbeam_channel::bounded(alloc, WAITING)?;
    let (tell_taken, taken) = crossbeam_channel::bounded(alloc, 1)?;
    let of_loop = LoopEnd {
        told: from,
        taken: tell_taken,
    };
    let of_reader = ReaderEnd {
        told: to,
        bell,
        taken,
    };
    Ok((of_loop, of_reader))
}

/// What the loop and its readers are connected by. An input whose reader's end is let go has nothing.
pub fn connect(alloc: Global) -> Result<(LoopEnds, ReaderEnds), AllocError> {
    let (ring, bell) = crossbeam_channel::bounded(alloc, 1)?;
    let (neighbours, of_neighbours) = ends_of(alloc, ring.clone()?)?;
    let (field, of_field) = ends_of(alloc, ring.clone()?)?;
    let of_loop = LoopEnds {
        neighbours,
        field,
        bell,
        kept: ring,
    };
    let of_readers = ReaderEnds {
        neighbours: of_neighbours,
        field: of_field,
    };
    Ok((of_loop, of_readers))
}
