//! The restarts that bring a resource to an incarnation.

ghost use Rattle.std.specs.Prelude.{◌≡◌, ◌++◌, ◌-◌, OnOk, replicate};
ghost use Rattle.world.specs.declared.event.Event.TheVariants.{Restart};

use crate::event::Event;
use std::alloc::AllocError;

/// Restarts a resource so many times.
fn push_same(events: &mut Vec<Event>, count: u32, resource: usize) -> Result<(), AllocError>
    ensures { OnOk result (events.new.items ≡ events.old.items ++ replicate count (Restart resource)) }
{
    for _i in 0..count {
        events.push(Event::Restart { resource })?;
    }
    Ok(())
}

/// Restarts a resource as often as brings it from its present incarnation to this one.
pub fn push_restarts(
    events: &mut Vec<Event>,
    resource: usize,
    present: u32,
    incarnation: u32,
) -> Result<(), AllocError>
    ensures { OnOk result (events.new.items ≡ events.old.items ++ replicate (incarnation - present) (Restart resource)) }
{
    let count = incarnation.saturating_sub(present);
    push_same(events, count, resource)
}
