//! The deliveries of what an entry took.

ghost use Rattle.std.specs.Prelude.{◌≡◌, ◌++◌, OnOk};
ghost use Rattle.world.specs.Schedule.{is_from, message_of, delivery, deliveries};
ghost use Rattle.world.specs.Steps.Tables.{before, TellTakes};

use crate::event::Event;
use crate::schedule::last_takes::{LastTake, taken_in};
use book::Book;
use evaluation::{Name, Take};
use std::alloc::AllocError;
use task_codes::TaskRef;

/// Whether this incarnation and number were taken.
fn is_from(taken: Option<(u32, u32)>, from: (u32, u32)) -> bool
    ensures { result ≡ is_from taken from }
{
    match taken {
        None => false,
        Some(pair) => pair.0 == from.0 && pair.1 == from.1,
    }
}

/// The message of a task's evaluation of this incarnation and number among the entries before an index, 0 where there is none.
fn message_of(book: &Book, index: usize, task: TaskRef, from: (u32, u32)) -> u64
    ensures { result ≡ message_of (before book.now.entries index) task from }
{
    let name = Name {
        task,
        incarnation: from.0,
        number: from.1,
    };
    match book.position_of(name) {
        None => 0,
        Some(place) => { if place < index { place as u64 + 1 } else { 0 } }
    }
}

/// Delivers what a take from another resource names, unless that was taken there last of its producer in this incarnation.
fn push_delivery(
    events: &mut Vec<Event>,
    book: &Book,
    index: usize,
    rows: &[LastTake],
    name: Name,
    take: &Take,
) -> Result<(), AllocError>
    requires { TellTakes (before book.now.entries index) name rows.now }
    ensures { OnOk result (events.new.items ≡ events.old.items ++ delivery (before book.now.entries index) name take.now) }
{
    let producer = take.producer;
    if producer.resource == name.task.resource {
        return Ok(());
    }
    let Some(from) = take.from else {
        return Ok(());
    };
    if is_from(taken_in(rows, producer, name.incarnation), from) {
        return Ok(());
    }
    events.push(Event::Deliver {
        message: message_of(book, index, producer, from),
        resource: name.task.resource,
    })?;
    Ok(())
}

/// Delivers what these takes need.
pub fn push_deliveries(
    events: &mut Vec<Event>,
    book: &Book,
    index: usize,
    rows: &[LastTake],
    name: Name,
    takes: &[Take],
) -> Result<(), AllocError>
    requires { TellTakes (before book.now.entries index) name rows.now }
    ensures { OnOk result (events.new.items ≡ events.old.items ++ deliveries (before book.now.entries index) name takes.now) }
{
    for take in takes {
        push_delivery(events, book, index, rows, name, take)?;
    }
    Ok(())
}
