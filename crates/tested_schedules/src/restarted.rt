//! The present incarnations of resources.

ghost use Rattle.std.specs.Prelude.{◌≡◌, IfOk, replicate, slice_set};
ghost use Rattle.world.specs.Step.{IsStep};
ghost use Rattle.world.specs.World.{WorldValue};
ghost use Rattle.tested_schedules.specs.Steps.Testing.{AreIncarnations};

use std::alloc::{AllocError, Global};
use world::{Done, Event};

/// The first incarnations: 1 for each resource.
pub fn first_incarnations(alloc: Global, resources: usize) -> Result<Vec<u32>, AllocError>
    ensures { IfOk result (λ first. first.items ≡ replicate resources 1) }
{
    vec![in alloc; 1u32; resources]
}

/// Notes the incarnation of a resource, if there is one.
fn set_incarnation(incarnations: &mut [u32], resource: usize, incarnation: u32)
    ensures { incarnations.new ≡ slice_set incarnations.old resource incarnation }
{
    if resource < incarnations.len() {
        incarnations[resource] = incarnation;
    }
}

/// Notes what an event did to the incarnations.
pub fn note_done(incarnations: &mut [u32], event: &Event, done: Done)
    ensures { (old new : WorldValue) → IsStep old new event.now done
        → AreIncarnations old incarnations.old → AreIncarnations new incarnations.new }
{
    match event {
        Event::Restart { resource } => match done {
            Done::Restarted { incarnation } => set_incarnation(
                incarnations,
                *resource,
                incarnation,
            ),
            _ => {}
        },
        _ => {}
    }
}
