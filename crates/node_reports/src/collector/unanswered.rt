ghost use Rattle.std.specs.Prelude.{◌≡◌, ◌==◌, ◌&&◌, ◌<◌, false, not, IfOk, Some, length, map, slice_get};
ghost use Rattle.std.specs.List.Sorted.{IsStrictlyIncreasing};
ghost use Rattle.evaluation.specs.Meaning.{Evaluated};
ghost use Rattle.node_reports.specs.Commands.{AreNumbered};
ghost use Rattle.node_reports.specs.Reports.{unanswered_of, is_evaluate};
ghost use Rattle.node_reports.specs.Steps.Collecting.{AreMarkedAlso, AreMarks, AreTicketMarks};

use crate::act::Act;
use crate::command::Command;
use crate::tickets::Tickets;
use evaluation::Frame;
use std::alloc::{AllocError, Global};
use std::thread;
use std::thread::Threads;

/// Marks the place of a ticket, if it has one.
pub(crate) fn mark(marks: &mut [bool], ticket: u64)
    ensures { AreMarkedAlso (λ n. ticket == n) marks.old marks.new }
{
    if ticket == 0 {
        return;
    }
    if let Ok(place) = usize::try_from(ticket - 1) {
        if place < marks.len() {
            marks[place] = true;
        }
    }
}

/// Fewer entries than this aren't worth a thread of their own.
const ENTRIES_OF_A_THREAD: usize = 4_000;

/// More threads than this gain little.
const MOST_THREADS: usize = 4;

/// Reads the tickets of entries. An entry lies where the thread that made it put it, so reading them takes longer than all that is done with them.
fn read_tickets<R: Threads + Sync>(rt: &R, entries: &[Frame], tickets: &mut [u64])
    requires { length tickets.old ≡ length entries.now }
    ensures { tickets.new ≡ map (λ (x : Evaluated). x.ticket) entries.now }
{
    let threads = (1 + entries.len() / ENTRIES_OF_A_THREAD).min(MOST_THREADS);
    let read = move |k: usize, ticket: &mut u64|
        requires { k < length entries.now }
        ensures { (x : Evaluated) → slice_get entries.entry.now k ≡ Some x → ticket.exit.now ≡ x.ticket }
    {
        *ticket = entries[k].evaluation().ticket();
    };
    thread::for_each_mut(rt, tickets, threads, &read);
}

/// The tickets of entries.
fn tickets_of<R: Threads + Sync>(
    rt: &R,
    alloc: Global,
    entries: &[Frame],
) -> Result<Vec<u64>, AllocError>
    ensures { IfOk result (λ tickets. tickets.items ≡ map (λ (x : Evaluated). x.ticket) entries.now) }
{
    let mut tickets = vec![in alloc; 0_u64; entries.len()]?;
    read_tickets(rt, entries, tickets.as_mut_slice());
    Ok(tickets)
}

/// For each place, whether its ticket is among these. The ticket of a place is one more than the place.
fn marks(alloc: Global, count: usize, tickets: &[u64]) -> Result<Vec<bool>, AllocError>
    ensures { IfOk result (λ v. AreTicketMarks count tickets.now v.items) }
{
    let mut marks = vec![in alloc; false; count]?;
    for k in 0..tickets.len() {
        mark(marks.as_mut_slice(), tickets[k]);
    }
    Ok(marks)
}

/// For each place, whether an entry has its ticket.
fn answered<R: Threads + Sync>(
    rt: &R,
    alloc: Global,
    count: usize,
    entries: &[Frame],
) -> Result<Vec<bool>, AllocError>
    ensures { IfOk result (λ v. AreMarks count entries.now v.items) }
{
    let tickets = tickets_of(rt, alloc, entries)?;
    let marks = marks(alloc, count, tickets.as_slice())?;
    Ok(marks)
}

/// Whether a command asks to evaluate, and isn't answered.
fn is_left(command: &Command, answered: bool) -> bool
    ensures { result ≡ (is_evaluate command.now.act && not answered) }
{
    match &command.act {
        Act::Evaluate { .. } => !answered,
        Act::Restart => false,
    }
}

/// The tickets of the Evaluate commands that no entry answers.
pub(crate) fn unanswered_tickets<R: Threads + Sync>(
    rt: &R,
    alloc: Global,
    commands: &[Command],
    entries: &[Frame],
) -> Result<Tickets, AllocError>
    requires { AreNumbered commands.now }
    ensures are { IfOk result (λ tickets. tickets ≡ unanswered_of commands.now entries.now) }
    ensures rising { IfOk result IsStrictlyIncreasing }
{
    let answered = answered(rt, alloc, commands.len(), entries)?;
    let mut tickets = Tickets::new(alloc);
    for k in 0..commands.len() {
        let command = &commands[k];
        let is_answered = answered[k];
        if is_left(command, is_answered) {
            tickets.push(command.ticket)?;
        }
    }
    Ok(tickets)
}
