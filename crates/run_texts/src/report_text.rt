//! The lines of a report: what the threads made, what they didn't do, and what went wrong.

ghost use Rattle.std.specs.Prelude.{◌≡◌, OnOk, OnErr};
ghost use Rattle.std.specs.Io.KnownBytes.{Appends};
ghost use Rattle.text_lines.specs.Growing.{GrowsBy};
ghost use Rattle.text_lines.specs.Sending.{SendsPart};
ghost use Rattle.run_texts.specs.ReportText.{cause_text, unanswered_line, unanswered_lines, fault_line, fault_lines, entry_lines, report_lines, replay_line};

use evaluation::Frame;
use node_reports::{Cause, NodeFault, Report};
use plant::Plant;
use std::alloc::{AllocError, Global};
use std::fmt::Write as _;
use std::io::Write;
use text_lines::{SendFault, push_resource, send_full, write_text};
use world::push_evaluation;

fn cause_name(cause: Cause) -> &'static str
    ensures { result.now ≡ cause_text cause }
{
    match cause {
        Cause::OutOfTurns => "OutOfTurns",
        Cause::NoSuchTask => "NoSuchTask",
        Cause::NumbersSpent => "NumbersSpent",
        Cause::Memory => "Memory",
        Cause::Misfit => "Misfit",
        Cause::Keeper => "Keeper",
        Cause::NotSent => "NotSent",
        Cause::Stopped => "Stopped",
    }
}

fn push_unanswered(lines: &mut String, ticket: u64) -> Result<(), AllocError>
    ensures { OnOk result (GrowsBy lines.old lines.new (unanswered_line ticket)) }
{
    write!(lines, "UNANSWERED {ticket}\n")
}

fn push_fault(lines: &mut String, plant: &Plant, fault: NodeFault) -> Result<(), AllocError>
    ensures { OnOk result (GrowsBy lines.old lines.new (fault_line plant.now fault)) }
{
    let ticket = fault.ticket;
    let cause = cause_name(fault.cause);
    lines.push_str("FAULT ")?;
    push_resource(lines, plant, fault.resource)?;
    write!(lines, " {ticket} {cause}\n")
}

/// Writes a line for each evaluation, with its place, counted from 1.
pub(crate) fn write_entries<W: Write>(
    alloc: Global,
    plant: &Plant,
    entries: &[Frame],
    writer: &mut W,
) -> Result<(), SendFault>
    ensures ok { OnOk result
        (Appends (W.contents writer.old) (W.contents writer.new) (entry_lines plant.now 1 entries.now)) }
    ensures part { OnErr result
        (SendsPart (entry_lines plant.now 1 entries.now) (W.contents writer.old) (W.contents writer.new)) }
{
    let mut lines = String::new(alloc);
    for i in 0..entries.len() {
        let place = (i + 1) as u64;
        push_evaluation(&mut lines, plant, place, entries[i].evaluation())?;
        send_full(&mut lines, writer)?;
    }
    Ok(write_text(writer, lines.as_str())?)
}

/// Writes a line for each command that wasn't answered.
fn write_unanswered<W: Write>(
    alloc: Global,
    tickets: &[u64],
    writer: &mut W,
) -> Result<(), SendFault>
    ensures ok { OnOk result (Appends (W.contents writer.old) (W.contents writer.new) (unanswered_lines tickets.now)) }
    ensures part { OnErr result
        (SendsPart (unanswered_lines tickets.now) (W.contents writer.old) (W.contents writer.new)) }
{
    let mut lines = String::new(alloc);
    for ticket in tickets {
        push_unanswered(&mut lines, *ticket)?;
        send_full(&mut lines, writer)?;
    }
    Ok(write_text(writer, lines.as_str())?)
}

/// Writes a line for each fault.
fn write_faults<W: Write>(
    alloc: Global,
    plant: &Plant,
    faults: &[NodeFault],
    writer: &mut W,
) -> Result<(), SendFault>
    ensures ok { OnOk result
        (Appends (W.contents writer.old) (W.contents writer.new) (fault_lines plant.now faults.now)) }
    ensures part { OnErr result
        (SendsPart (fault_lines plant.now faults.now) (W.contents writer.old) (W.contents writer.new)) }
{
    let mut lines = String::new(alloc);
    for fault in faults {
        push_fault(&mut lines, plant, *fault)?;
        send_full(&mut lines, writer)?;
    }
    Ok(write_text(writer, lines.as_str())?)
}

/// Writes all lines of a report.
pub(crate) fn write_report<W: Write>(
    alloc: Global,
    plant: &Plant,
    report: &Report,
    writer: &mut W,
) -> Result<(), SendFault>
    ensures ok { OnOk result
        (Appends (W.contents writer.old) (W.contents writer.new) (report_lines plant.now report.now)) }
    ensures part { OnErr result
        (SendsPart (report_lines plant.now report.now) (W.contents writer.old) (W.contents writer.new)) }
{
    write_entries(alloc, plant, report.book.entries(), writer)?;
    write_unanswered(alloc, report.unanswered.as_slice(), writer)?;
    write_faults(alloc, plant, report.node_faults.as_slice(), writer)
}

/// The last line: whether the run of the book's schedule gives its entries.
pub(crate) fn replay_line(equal: bool) -> &'static str
    ensures { result.now ≡ replay_line equal }
{
    if equal {
        "REPLAY equal\n"
    } else {
        "REPLAY differs\n"
    }
}
