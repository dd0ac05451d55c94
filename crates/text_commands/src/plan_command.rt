ghost use Rattle.std.specs.Prelude.{◌≤◌, length, OnOk, IfOk, IfErr};
ghost use Rattle.std.specs.Io.KnownBytes.{Appends};
ghost use Rattle.plant.specs.Plan.{IsPlan};
ghost use Rattle.text_lines.specs.Sending.{Stops};
ghost use Rattle.text_commands.specs.PlanText.{plan_lines, RefusesPlanOf, WritesPlan, ExplainsPlan};

use crate::check_command::read_plant;
use crate::plan_form::PlanForm;
use crate::plan_lines::push_entry;
use crate::text_command_fault::TextCommandFault;
use plant::{Plant, plan};
use std::alloc::Global;
use std::io::Write;
use task_codes::Due;
use text_lines::{SendFault, send_full, write_text};

/// Writes the lines for each entry.
fn write_dues<W: Write>(
    alloc: Global,
    plant: &Plant,
    form: PlanForm,
    dues: &[Due],
    writer: &mut W,
) -> Result<(), SendFault>
    ensures ok { OnOk result (Appends (W.contents writer.old) (W.contents writer.new) (plan_lines plant.now form dues.now)) }
    ensures stopped { IfErr result
        (λ fault. Stops fault (plan_lines plant.now form dues.now) (W.contents writer.old) (W.contents writer.new)) }
{
    let mut lines = String::new(alloc);
    for i in 0..dues.len() {
        push_entry(&mut lines, plant, form, i + 1, dues[i])?;
        send_full(&mut lines, writer)?;
    }
    Ok(write_text(writer, lines.as_str())?)
}

/// The plan of a plant.
pub fn plan_of(alloc: Global, plant: &Plant, until: u32) -> Result<Vec<Due>, TextCommandFault>
    ensures ok { IfOk result (λ dues. IsPlan plant.now until dues.items × (length dues.items ≤ 100000)) }
    ensures err { IfErr result (RefusesPlanOf plant.now until) }
{
    Ok(plan(alloc, plant, until)?)
}

/// Reads a plant, and writes its plan up to and with `until` (in ms): a line for each entry, as `10 R1.FAST`, or the lines of
/// a schedule that evaluates and delivers as planned.
///
/// `Text` comes before anything is written; `TooLong` exactly where there are more than 100,000 entries. After `Write`
/// what went out is a prefix and not all, after `Memory` a prefix.
pub fn plan_text<W: Write>(
    alloc: Global,
    plant: &str,
    until: u32,
    form: PlanForm,
    writer: &mut W,
) -> Result<(), TextCommandFault>
    ensures ok { OnOk result (WritesPlan plant.now until form (W.contents writer.old) (W.contents writer.new)) }
    ensures fault { IfErr result (ExplainsPlan plant.now until form (W.contents writer.old) (W.contents writer.new)) }
{
    let plant = read_plant(alloc, plant)?;
    let dues = plan_of(alloc, &plant, until)?;
    Ok(write_dues(alloc, &plant, form, &dues, writer)?)
}
