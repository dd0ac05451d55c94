ghost use Rattle.std.specs.Prelude.{◌↔◌, IsTrue, All};
ghost use Rattle.needed_networks.specs.Needs.{IsIdle};

use crate::closed::is_closed;
use crate::count_limit::CountLimit;
use crate::places::has_mark;
use crate::touched::{Touched, all_touched};
use power_flow::Ladder;
use std::alloc::{AllocError, Global};

/// Takes the mark from a place.
fn wake(marks: &mut [bool], place: usize) {
    if place < marks.len() {
        marks[place] = false;
    }
}

fn wake_all(marks: &mut [bool], places: &[usize]) {
    for place in places {
        wake(marks, *place);
    }
}

/// Whether a network changes something that matters.
fn is_needed(touched: &Touched, idle: &[bool]) -> bool {
    touched.changes.iter().any(|place| !has_mark(idle, *place))
}

/// Keeps the networks, from the last one on, that change what matters, so that what they read matters too. Whether there
/// was one that wasn't kept before.
fn keep_more(networks: &[Touched], idle: &mut [bool], omitted: &mut [bool]) -> bool {
    let mut more = false;
    for k in (0..networks.len()).rev() {
        if has_mark(omitted, k) && is_needed(&networks[k], idle) {
            wake_all(idle, &networks[k].reads);
            wake_all(idle, &networks[k].changes);
            wake(omitted, k);
            more = true;
        }
    }
    more
}

/// Whether each of these places matters.
fn places_matter(idle: &[bool], places: &[usize]) -> bool
    ensures { IsTrue result ↔ All (λ place. IsIdle idle.now place → ⊥) places.now }
{
    places.iter().all(|place| !has_mark(idle, *place))
}

/// A mark for each name at which nothing stands that matters to a question, and for each network that it doesn't need. What
/// has no mark matters, and is needed. Of the counts of counters, how far they matter.
#[derive(Drop)]
pub struct Needs {
    pub idle: Vec<bool>,
    pub omitted: Vec<bool>,
    pub limits: Vec<CountLimit>,
}

impl Needs {
    ghost use Rattle.std.specs.Prelude.{◌≡◌, [], IfOk, All};
    ghost use Rattle.needed_networks.specs.Needs.{IsClosed, IsIdle};

    /// Everything is needed.
    pub fn all(alloc: Global) -> Self
        ensures idle { result.idle.items ≡ [] }
        ensures omitted { result.omitted.items ≡ [] }
    {
        Needs {
            idle: Vec::new(alloc),
            omitted: Vec::new(alloc),
            limits: Vec::new(alloc),
        }
    }

    /// What the variables at these places need: the networks that change them, those that change what these read, and so on.
    pub fn of(alloc: Global, ladder: &Ladder, places: &[usize]) -> Result<Self, AllocError>
        ensures closed { IfOk result (λ n. IsClosed ladder.now.declarations n.idle.items n.omitted.items ladder.now.networks) }
        ensures places { IfOk result (λ n. All (λ place. IsIdle n.idle.items place → ⊥) places.now) }
    {
        let networks = all_touched(alloc, ladder)?;
        let mut idle = vec![in alloc; true; ladder.declarations().len()]?;
        let mut omitted = vec![in alloc; true; networks.len()]?;
        wake_all(idle.as_mut_slice(), places);
        for pass in 0..networks.len() {
            if !keep_more(&networks, idle.as_mut_slice(), omitted.as_mut_slice()) {
                break;
            }
        }
        if is_closed(ladder, &idle, &omitted) && places_matter(&idle, places) {
            return Ok(Needs {
                idle,
                omitted,
                limits: Vec::new(alloc),
            });
        }
        Ok(Needs::all(alloc))
    }

    /// Whether a network is left out.
    pub fn leaves_out_any(&self) -> bool {
        self.omitted.iter().any(|omitted| *omitted)
    }
}
