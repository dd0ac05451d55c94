//! What a second drawing has wrong beside the first.

ghost use Rattle.std.specs.Prelude.{◌≡◌, ◌-◌, IfErr, MatchOption, OnOk};
ghost use Rattle.drawings.specs.Lines.{line_of_row};
ghost use Rattle.text_commands.specs.SecondDrawing.{IsNoneTwice, line_below};
ghost use Rattle.text_commands.specs.Steps.SecondDrawing.{IsAsideOf, IsBelowOf, IsTwiceAt, RefusesBeside};

use crate::second_drawing::drawn_graph::DrawnGraph;
use crate::second_drawing::names::{add_names, is_box_name, seen_names};
use crate::second_drawing::reading::{bind_fault_below, own_line};
use crate::second_fault::SecondFault;
use crate::text_command_fault::TextCommandFault;
use crate::text_fault::TextFault;
use declared_names::Declarations;
use drawings::{DrawnBox, Place};
use ladder_text::{DrawFault, DrawFaultKind};
use name_faults::BindFault;
use network::{GraphFault, GraphFaultKind};
use std::alloc::Global;

/// Where the left rail of the second drawing begins, if it stands in another column than that of the first.
fn aside(first: &[Place], second: &[Place]) -> Option<Place>
    ensures { MatchOption result (IsBelowOf first.now second.now) (IsAsideOf first.now second.now) }
{
    match (first.first(), second.first()) {
        (Some(rail), Some(other)) if rail.column != other.column => Some(*other),
        _ => None,
    }
}

/// The corner of the first box that has the name of a box of the first drawing.
fn twice(declarations: &Declarations, boxes: &[DrawnBox]) -> Option<Place>
    ensures { MatchOption result (IsNoneTwice declarations.now boxes.now) (IsTwiceAt declarations.now boxes.now) }
{
    for drawn in boxes {
        if is_box_name(declarations, &drawn.instance) {
            return Some(Place {
                row: drawn.top,
                column: drawn.left,
            });
        }
    }
    None
}

/// The line of a row of the second drawing, above which so many empty rows stand.
fn line_below(rows: u64, row: usize) -> u64
    ensures { result ≡ line_below rows row }
{
    own_line(rows, 1u64.saturating_add(row.saturating_sub(1) as u64))
}

/// Looks for what the second drawing has wrong beside the first: where its rail stands, names of boxes, and other names, where
/// the first's variables are inputs. So many empty rows stand above it.
pub(crate) fn check_beside(
    alloc: Global,
    rows: u64,
    first: &DrawnGraph,
    names: &Declarations,
    second: &DrawnGraph,
    others: &Declarations,
) -> Result<(), TextCommandFault>
    ensures err { IfErr result (RefusesBeside rows first.now names.now second.now others.now) }
{
    if let Some(place) = aside(first.graph.rails(), second.graph.rails()) {
        return Err(TextCommandFault::Text(TextFault::Second(SecondFault::Draw(DrawFault {
            kind: DrawFaultKind::NoLeftRail,
            line: line_below(rows, place.row),
            column: place.column,
        }))));
    }
    if let Some(place) = twice(names, second.drawing.boxes()) {
        return Err(TextCommandFault::Text(TextFault::Second(SecondFault::Graph(GraphFault {
            kind: GraphFaultKind::InstanceTwice,
            line: line_below(rows, place.row),
            column: place.column,
        }))));
    }
    let mut seen = seen_names(alloc, names)?;
    add_names(&mut seen, others)?;
    match BindFault::first(&seen, &second.graph) {
        Some(fault) => Err(TextCommandFault::Text(TextFault::Second(SecondFault::Bind(
            bind_fault_below(rows, fault),
        )))),
        None => Ok(()),
    }
}
