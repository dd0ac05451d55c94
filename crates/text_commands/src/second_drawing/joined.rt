//! The ladder of two drawings.

ghost use Rattle.std.specs.Prelude.{◌≡◌, ◌+◌, ◌++◌, IfOk, IfErr, IsTrue, length, string_bytes};
ghost use Rattle.needed_networks.specs.Slices.{HaveRails};
ghost use Rattle.text_commands.specs.SecondDrawing.{IsLadderOfBoth, joined_names, marks};
ghost use Rattle.text_commands.specs.Steps.SecondDrawing.{IsApart, IsJoined, RefusesLadders};

use crate::second_drawing::beside::check_beside;
use crate::second_drawing::drawn_graph::DrawnGraph;
use crate::second_drawing::names::add_names;
use crate::second_drawing::page::{empty_rows, page_of, row_count};
use crate::second_drawing::reading::{read_first, read_second};
use crate::text_command_fault::TextCommandFault;
use declared_names::Declarations;
use drawings::{Drawing, Place};
use ladder_text::ReadText;
use lists::are_same;
use name_faults::Guess;
use needed_networks::is_closed;
use network::{Graph, Network, are_same_elements};
use power_flow::Ladder;
use std::alloc::{AllocError, Global};

/// The ladder of two drawings, the places of their left rails, how many networks it has, and their text as one drawing.
#[derive(Drop)]
pub struct JoinedLadder {
    pub ladder: Ladder,
    pub rails: Vec<Place>,
    pub networks: usize,
    pub page: String,
}

/// Whether the rails are those of two drawings, one below the other.
fn are_joined_rails(rails: &[Place], first: &[Place], second: &[Place]) -> bool
    ensures { IsTrue result → rails.now ≡ first.now ++ second.now }
{
    if rails.len() < first.len() {
        return false;
    }
    let (above, below) = rails.split_at(first.len());
    above == first && below == second
}

fn is_same_network(network: &Network, other: &Network) -> bool
    ensures { IsTrue result → network.now ≡ other.now }
{
    are_same_elements(network.elements(), other.elements())
}

fn are_same_networks(networks: &[Network], others: &[Network]) -> bool
    ensures { IsTrue result → networks.now ≡ others.now }
{
    are_same(networks, others, is_same_network)
}

/// Whether the networks are those of two drawings, one behind the other.
fn are_joined_networks(networks: &[Network], first: &[Network], second: &[Network]) -> bool
    ensures { IsTrue result → networks.now ≡ first.now ++ second.now }
{
    if networks.len() < first.len() {
        return false;
    }
    let (before, behind) = networks.split_at(first.len());
    are_same_networks(before, first) && are_same_networks(behind, second)
}

/// So many without a mark, and behind them so many with one.
fn marks(alloc: Global, without: usize, with_one: usize) -> Result<Vec<bool>, AllocError>
    ensures { IfOk result (λ made. made.items ≡ marks without with_one) }
{
    let mut marks = vec![in alloc; false; without]?;
    let mut more = vec![in alloc; true; with_one]?;
    marks.append(&mut more)?;
    Ok(marks)
}

/// The ladder of a page on which two drawings stand. Both are read already, so it is refused only for want of memory.
fn ladder_of_page(
    alloc: Global,
    page: &str,
    first: &DrawnGraph,
    second: &DrawnGraph,
    declarations: Declarations,
) -> Result<Ladder, AllocError>
    ensures { IfOk result (IsJoined first.now second.now declarations) }
{
    let Ok(drawing) = Drawing::read(alloc, page, 1) else {
        return Err(AllocError);
    };
    let Ok(graph) = Graph::build(alloc, &drawing) else {
        return Err(AllocError);
    };
    let are_joined = are_joined_rails(graph.rails(), first.graph.rails(), second.graph.rails())
        && are_joined_networks(
            graph.networks(),
            first.graph.networks(),
            second.graph.networks(),
        );
    if !are_joined {
        return Err(AllocError);
    }
    match Ladder::bind(alloc, graph, declarations) {
        Ok(ladder) => Ok(ladder),
        Err(_) => Err(AllocError),
    }
}

/// Looks whether the second drawing's networks, those behind so many, change no name of the first, those before so many. They
/// store at none of them, so it is refused only for want of memory.
fn check_apart(
    alloc: Global,
    ladder: &Ladder,
    names: usize,
    networks: usize,
    others: usize,
) -> Result<(), AllocError>
    ensures { IfOk result (λ _. IsApart names networks others ladder.now) }
{
    let idle = marks(
        alloc,
        names,
        ladder.declarations().len().saturating_sub(names),
    )?;
    let omitted = marks(alloc, networks, others)?;
    if is_closed(ladder, &idle, &omitted) {
        Ok(())
    } else {
        Err(AllocError)
    }
}

/// The rails of both drawings.
fn joined_rails(alloc: Global, first: &[Place], second: &[Place]) -> Result<Vec<Place>, AllocError>
    ensures { IfOk result (λ rails. rails.items ≡ first.now ++ second.now) }
{
    let mut rails = Vec::from_slice(alloc, first)?;
    rails.extend_from_slice(second)?;
    Ok(rails)
}

/// The ladder of two drawings that were read.
fn join(
    alloc: Global,
    first: &DrawnGraph,
    names: Declarations,
    second: &DrawnGraph,
    others: &Declarations,
    rows: usize,
) -> Result<JoinedLadder, AllocError>
    ensures joined { IfOk result (λ j. IsJoined first.now second.now (joined_names names others.now) j.ladder) }
    ensures apart { IfOk result (λ j. IsApart (length names) (length first.now.graph.networks)
        (length second.now.graph.networks) j.ladder) }
    ensures rails { IfOk result (λ j. j.rails.items ≡ first.now.graph.rails ++ second.now.graph.rails) }
    ensures count { IfOk result (λ j. j.networks ≡ length first.now.graph.networks + length second.now.graph.networks) }
{
    let count = names.len();
    let mut declarations = names;
    add_names(&mut declarations, others)?;
    let page = page_of(alloc, first, second, rows)?;
    let ladder = ladder_of_page(alloc, page.as_str(), first, second, declarations)?;
    let (before, behind) = (first.graph.networks().len(), second.graph.networks().len());
    check_apart(alloc, &ladder, count, before, behind)?;
    let rails = joined_rails(alloc, first.graph.rails(), second.graph.rails())?;
    let Some(networks) = before.checked_add(behind) else {
        return Err(AllocError);
    };
    Ok(JoinedLadder {
        ladder,
        rails,
        networks,
        page,
    })
}

/// The ladder of two drawings, as if the second one stood below the first: the networks of the second stand behind those of the
/// first, and store at none of its names. Names that both have are those of the first.
pub fn read_both(alloc: Global, first: &str, second: &str) -> Result<JoinedLadder, TextCommandFault>
    ensures ok { IfOk result (λ j. IsLadderOfBoth first.now second.now j.ladder.declarations j.ladder.networks) }
    ensures rails { IfOk result (λ j. HaveRails j.ladder.networks j.rails.items) }
    ensures count { IfOk result (λ j. j.networks ≡ length j.ladder.networks) }
    ensures err { IfErr result (RefusesLadders first.now second.now) }
{
    let (one, names) = read_first(alloc, first)?;
    let rows = empty_rows(alloc, first)?;
    let above = rows.as_str();
    let count = row_count(above);
    let two = read_second(alloc, first, above, second)?;
    let others = Declarations::guess(alloc, &two.graph)?;
    check_beside(alloc, count as u64, &one, &names, &two, &others)?;
    Ok(join(alloc, &one, names, &two, &others, count)?)
}
