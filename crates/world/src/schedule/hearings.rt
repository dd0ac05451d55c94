//! What an entry's resource needs to have heard what the entry has.

ghost use Rattle.std.specs.Prelude.{◌≡◌, ◌++◌, OnOk, length};
ghost use Rattle.world.specs.Schedule.{hearing_of, hearings};
ghost use Rattle.world.specs.Steps.Tables.{before, IsAt};

use crate::event::Event;
use crate::schedule::known::{known_from, newest_of};
use crate::schedule::restarts::push_restarts;
use crate::schedule::tables::Tables;
use book::Book;
use evaluation::Name;
use std::alloc::AllocError;

/// Restarts a resource as often as brings it from its present incarnation to the one heard of, and lets another one hear it that knows of a lower one.
fn push_hearing(
    events: &mut Vec<Event>,
    resource: usize,
    of: usize,
    present: u32,
    known: u32,
    incarnation: u32,
) -> Result<(), AllocError>
    ensures { OnOk result (events.new.items ≡ events.old.items ++ hearing_of resource of present known incarnation) }
{
    push_restarts(events, of, present, incarnation)?;
    if known < incarnation {
        events.push(Event::Hear {
            resource,
            of,
            incarnation,
        })?;
    }
    Ok(())
}

/// For each other resource in order, brings it to the incarnation of it that was heard, and lets the name's resource hear it where it hasn't that number in its incarnation.
pub fn push_hearings(
    events: &mut Vec<Event>,
    book: &Book,
    index: usize,
    tables: &Tables,
    name: Name,
    heard: &[u32],
) -> Result<(), AllocError>
    requires at { IsAt book.now index tables.now name }
    requires many { length heard.now ≡ length book.now.first }
    ensures { OnOk result (events.new.items ≡ events.old.items ++ hearings book.now.first (before book.now.entries index) name heard.now) }
{
    let first = book.first();
    let present = tables.present.as_slice();
    let newest = newest_of(book, index, tables, name);
    for of in 0..heard.len() {
        if of != name.task.resource {
            let known = known_from(first, newest, of);
            push_hearing(
                events,
                name.task.resource,
                of,
                present[of],
                known,
                heard[of],
            )?;
        }
    }
    Ok(())
}
