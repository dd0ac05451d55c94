//! The first drawing, and the second one below it.

ghost use Rattle.std.specs.Prelude.{◌≡◌, IfOk, IfErr, length, string_bytes};
ghost use Rattle.name_faults.specs.Guess.{AreGuessed};
ghost use Rattle.name_faults.specs.Binding.{CanBind};
ghost use Rattle.power_flow.specs.LadderValue.{diagrams};
ghost use Rattle.text_commands.specs.SecondDrawing.{bind_fault_below, draw_fault_below, empty_rows, fault_below, graph_fault_below, lowered, own_line};
ghost use Rattle.text_commands.specs.Steps.Refusing.{RefusesLadder};
ghost use Rattle.text_commands.specs.Steps.SecondDrawing.{IsReadGraph, RefusesOther, told_below};

use crate::second_drawing::drawn_graph::{DrawnGraph, read_graph};
use crate::second_fault::SecondFault;
use crate::text_command_fault::TextCommandFault;
use crate::text_fault::TextFault;
use declared_names::Declarations;
use ladder_text::DrawFault;
use name_faults::{BindFault, Guess};
use network::GraphFault;
use std::alloc::Global;

/// The first drawing: its networks, and its names, declared by their use, with which nothing is wrong.
pub(crate) fn read_first(
    alloc: Global,
    drawing: &str,
) -> Result<(DrawnGraph, Declarations), TextCommandFault>
    ensures read { IfOk result (λ r. IsReadGraph drawing.now r.0) }
    ensures guessed { IfOk result (λ r. AreGuessed r.0.graph r.1) }
    ensures bound { IfOk result (λ r. CanBind r.1 (diagrams r.0.graph)) }
    ensures err { IfErr result (RefusesLadder drawing.now) }
{
    let drawn = read_graph(alloc, drawing)?;
    let declarations = Declarations::guess(alloc, &drawn.graph)?;
    match BindFault::first(&declarations, &drawn.graph) {
        Some(fault) => Err(TextCommandFault::Text(TextFault::Bind(fault))),
        None => Ok((drawn, declarations)),
    }
}

/// The line of the second drawing's text that stands on this one, where so many empty rows stand above it; its first, where
/// this one stands above it.
pub(crate) fn own_line(rows: u64, line: u64) -> u64
    ensures { result ≡ own_line rows line }
{
    line.saturating_sub(rows).max(1)
}

fn draw_fault_below(rows: u64, fault: DrawFault) -> DrawFault
    ensures { result ≡ draw_fault_below rows fault }
{
    DrawFault {
        kind: fault.kind,
        line: own_line(rows, fault.line),
        column: fault.column,
    }
}

fn graph_fault_below(rows: u64, fault: GraphFault) -> GraphFault
    ensures { result ≡ graph_fault_below rows fault }
{
    GraphFault {
        kind: fault.kind,
        line: own_line(rows, fault.line),
        column: fault.column,
    }
}

pub(crate) fn bind_fault_below(rows: u64, fault: BindFault) -> BindFault
    ensures { result ≡ bind_fault_below rows fault }
{
    BindFault {
        kind: fault.kind,
        line: own_line(rows, fault.line),
        column: fault.column,
    }
}

/// A fault of the second drawing's text, above which so many empty rows stand, by its own lines.
fn fault_below(rows: u64, fault: TextFault) -> TextFault
    ensures { result ≡ fault_below rows fault }
{
    match fault {
        TextFault::Draw(fault) => TextFault::Second(SecondFault::Draw(draw_fault_below(
            rows, fault,
        ))),
        TextFault::Graph(fault) => TextFault::Second(SecondFault::Graph(graph_fault_below(
            rows, fault,
        ))),
        TextFault::Bind(fault) => TextFault::Second(SecondFault::Bind(bind_fault_below(
            rows, fault,
        ))),
        TextFault::Plant(_) | TextFault::TooLong | TextFault::Second(_) => fault,
    }
}

fn told_below(rows: u64, fault: TextCommandFault) -> TextCommandFault
    ensures { result ≡ told_below rows fault }
{
    match fault {
        TextCommandFault::Text(fault) => TextCommandFault::Text(fault_below(rows, fault)),
        TextCommandFault::Word(_) | TextCommandFault::Write | TextCommandFault::Memory => fault,
    }
}

/// The networks of the second drawing, above which these empty rows stand.
pub(crate) fn read_second(
    alloc: Global,
    first: &str,
    rows: &str,
    second: &str,
) -> Result<DrawnGraph, TextCommandFault>
    requires { rows.now ≡ empty_rows first.now }
    ensures read { IfOk result (IsReadGraph (lowered first.now second.now)) }
    ensures err { IfErr result (RefusesOther first.now second.now) }
{
    let mut text = String::from_str(alloc, rows)?;
    text.push_str(second)?;
    match read_graph(alloc, text.as_str()) {
        Ok(drawn) => Ok(drawn),
        Err(fault) => Err(told_below(rows.len() as u64, fault)),
    }
}
