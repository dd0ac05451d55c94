//! The ladder of the networks that a question needs.

ghost use Rattle.std.specs.Prelude.{◌≡◌, IfOk, IfSome, length};
ghost use Rattle.needed_networks.specs.Slices.{HaveRails, kept_networks};
ghost use Rattle.power_flow.specs.LadderValue.{IsLadderOfGraph};

use crate::blank_page::BlankPage;
use crate::places::has_mark;
use crate::same_networks::are_kept;
use declared_names::{Declarations, DeclareFault};
use drawings::{Drawing, Place};
use ladder_text::{DrawFaultKind, ReadText};
use name_faults::BindKind;
use network::{Graph, GraphFaultKind, are_same_places};
use power_flow::Ladder;
use std::alloc::{AllocError, Global};
use std::str::from_utf8;

/// The text of a ladder's drawing with all networks blank that are left out.
fn page_of(
    alloc: Global,
    ladder: &Ladder,
    rails: &[Place],
    text: &str,
    omitted: &[bool],
) -> Result<BlankPage, AllocError> {
    let mut page = BlankPage::new(alloc, text)?;
    page.keep_right_rail();
    for place in rails {
        page.keep(place.row, place.column);
    }
    for k in 0..usize::MAX {
        let Some(elements) = ladder.elements(k) else {
            break;
        };
        if !has_mark(omitted, k) {
            page.keep_elements(elements);
        }
    }
    Ok(page)
}

/// The drawing of a text; None where it is ill drawn.
fn drawing_of(alloc: Global, text: &[u8]) -> Result<Option<Drawing>, AllocError> {
    let Ok(text) = from_utf8(text) else {
        return Ok(None);
    };
    match Drawing::read(alloc, text, 1) {
        Ok(drawing) => Ok(Some(drawing)),
        Err(fault) if fault.kind == DrawFaultKind::Memory => Err(AllocError),
        Err(_) => Ok(None),
    }
}

/// The networks of a text; None where it has none.
fn graph_of(alloc: Global, text: &[u8]) -> Result<Option<Graph>, AllocError> {
    let Some(drawing) = drawing_of(alloc, text)? else {
        return Ok(None);
    };
    match Graph::build(alloc, &drawing) {
        Ok(graph) => Ok(Some(graph)),
        Err(fault) if fault.kind == GraphFaultKind::Memory => Err(AllocError),
        Err(_) => Ok(None),
    }
}

/// The same names once more; None where that can't be.
fn same_declarations(
    alloc: Global,
    declarations: &Declarations,
) -> Result<Option<Declarations>, AllocError>
    ensures { IfOk result (λ made. IfSome made (λ copy. copy ≡ declarations.now)) }
{
    let mut copy = Declarations::new(alloc);
    for place in 0..declarations.len() {
        if let Some((name, declared)) = declarations.entry(place) {
            match copy.add(name, declared) {
                Ok(()) => {}
                Err(DeclareFault::Memory) => return Err(AllocError),
                Err(DeclareFault::Twice) => return Ok(None),
            }
        }
    }
    if copy.same(declarations) {
        Ok(Some(copy))
    } else {
        Ok(None)
    }
}

/// Binds names; None where they can't be bound.
fn bound(
    alloc: Global,
    graph: Graph,
    declarations: Declarations,
) -> Result<Option<Ladder>, AllocError>
    ensures { IfOk result (λ made. IfSome made (IsLadderOfGraph declarations graph)) }
{
    match Ladder::bind(alloc, graph, declarations) {
        Ok(ladder) => Ok(Some(ladder)),
        Err(fault) if fault.kind == BindKind::Memory => Err(AllocError),
        Err(_) => Ok(None),
    }
}

/// A ladder of some networks of another one, and how many these are.
#[derive(Drop)]
pub struct Slice {
    pub ladder: Ladder,
    pub networks: usize,
}

/// The ladder of the networks that aren't left out, with the same names. The text of its drawing is read once more with the
/// others blank, and what comes is compared with them; None where it isn't the same.
pub fn slice_of(
    alloc: Global,
    ladder: &Ladder,
    rails: &[Place],
    text: &str,
    omitted: &[bool],
) -> Result<Option<Slice>, AllocError>
    requires { HaveRails ladder.now.networks rails.now }
    ensures declarations { IfOk result (λ made. IfSome made (λ slice. slice.ladder.declarations ≡ ladder.now.declarations)) }
    ensures networks { IfOk result (λ made. IfSome made (λ slice. slice.ladder.networks ≡ kept_networks omitted.now ladder.now.networks)) }
    ensures count { IfOk result (λ made. IfSome made (λ slice. slice.networks ≡ length slice.ladder.networks)) }
{
    let page = page_of(alloc, ladder, rails, text, omitted)?;
    let Some(graph) = graph_of(alloc, page.kept())? else {
        return Ok(None);
    };
    if !are_same_places(graph.rails(), rails) || !are_kept(ladder, omitted, graph.networks()) {
        return Ok(None);
    }
    let Some(declarations) = same_declarations(alloc, ladder.declarations())? else {
        return Ok(None);
    };
    let networks = graph.networks().len();
    match bound(alloc, graph, declarations)? {
        Some(ladder) => Ok(Some(Slice { ladder, networks })),
        None => Ok(None),
    }
}
