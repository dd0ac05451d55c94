//! The networks of a drawing.

ghost use Rattle.std.specs.Prelude.{◌≡◌, IfOk, IfErr, string_bytes};
ghost use Rattle.text_commands.specs.SecondDrawing.{IsDrawnAs};
ghost use Rattle.text_commands.specs.Steps.Refusing.{RefusesLadder, RefusesLadderOfText};
ghost use Rattle.text_commands.specs.Steps.SecondDrawing.{IsReadGraph};

use crate::comments::without_comments;
use crate::text_command_fault::TextCommandFault;
use crate::text_fault::TextFault;
use drawings::Drawing;
use ladder_text::ReadText;
use network::Graph;
use std::alloc::Global;

/// The text that is read, what is drawn, and its networks.
#[derive(Drop)]
pub(crate) struct DrawnGraph {
    pub(crate) text: String,
    pub(crate) drawing: Drawing,
    pub(crate) graph: Graph,
}

/// The networks of a text as it stands.
fn graph_of_text(alloc: Global, text: &str) -> Result<DrawnGraph, TextCommandFault>
    ensures text { IfOk result (λ d. string_bytes d.text ≡ text.now) }
    ensures drawn { IfOk result (λ d. IsDrawnAs text.now d.drawing d.graph) }
    ensures err { IfErr result (RefusesLadderOfText text.now) }
{
    let drawing = Drawing::read(alloc, text, 1)?;
    let graph = Graph::build(alloc, &drawing)?;
    let text = String::from_str(alloc, text)?;
    Ok(DrawnGraph {
        text,
        drawing,
        graph,
    })
}

/// The networks of a drawing. A text that is ill drawn is read with its comments emptied.
pub(crate) fn read_graph(alloc: Global, drawing: &str) -> Result<DrawnGraph, TextCommandFault>
    ensures ok { IfOk result (IsReadGraph drawing.now) }
    ensures err { IfErr result (RefusesLadder drawing.now) }
{
    match graph_of_text(alloc, drawing) {
        Err(TextCommandFault::Text(TextFault::Draw(_))) => {
            let text = without_comments(alloc, drawing)?;
            graph_of_text(alloc, text.as_str())
        }
        read => read,
    }
}
