ghost use Rattle.std.specs.Prelude.{◌≡◌, ◌<◌, ◌++◌, ◌∷◌, ℕ, List, [], Some, IfOk, IfSome, OnOk, map, slice_get, length};
ghost use Rattle.drawings.specs.Picture.{Picture};
ghost use Rattle.network.specs.declared.listing.listed.Entry.{Entry};
ghost use Rattle.network.specs.Steps.Listed.{element_seen, stand_for};
ghost use Rattle.network.specs.Steps.Ranks.{AreAllSplit, IsPut};
ghost use Rattle.network.specs.Steps.Tables.{AreSuch};

use crate::element::Element;
use crate::listing::listed::{Elements, Entry, Seen, entry_seen};
use crate::networks::Network;
use crate::order::part::Part;
use drawings::Drawing;
use std::alloc::{AllocError, Global};

/// How many elements have each rank.
fn sizes_of(alloc: Global, ranks: &[Option<u32>], count: usize) -> Result<Vec<usize>, AllocError>
    requires { (i m : ℕ) → slice_get ranks.now i ≡ Some (Some m) → m < count }
    ensures { IfOk result (λ sizes. length sizes.items ≡ count) }
{
    let mut sizes: Vec<usize> = Vec::new(alloc);
    sizes.resize(count, 0)?;
    for k in 0..ranks.len() {
        if let Some(rank) = ranks[k] {
            let rank = rank as usize;
            sizes[rank] = sizes[rank].saturating_add(1);
        }
    }
    Ok(sizes)
}

/// Parts without entries, with room for so many in each.
fn empty_parts(alloc: Global, sizes: &[usize]) -> Result<Vec<Part>, AllocError>
    ensures long { IfOk result (λ parts. length parts.items ≡ length sizes.now) }
    ensures empty { IfOk result (λ parts. AreSuch (λ (es : List Entry). es ≡ []) parts.items) }
{
    let mut parts = Vec::with_capacity(alloc, sizes.len())?;
    for size in sizes {
        parts.push(Part::with_capacity(alloc, *size)?)?;
    }
    Ok(parts)
}

/// Puts an entry at the end of the part of its rank.
fn put(parts: &mut Vec<Part>, rank: Option<u32>, entry: Entry) -> Result<(), AllocError>
    requires { IfSome rank (λ m. m < length parts.old.items) }
    ensures { OnOk result (IsPut parts.old.items rank entry parts.new.items) }
{
    if let Some(rank) = rank {
        parts[rank as usize].push(entry)?;
    }
    Ok(())
}

/// Puts each entry into the part of its rank.
fn split_entries(
    alloc: Global,
    entries: &[Entry],
    ranks: &[Option<u32>],
    count: usize,
) -> Result<Vec<Part>, AllocError>
    requires long { length ranks.now ≡ length entries.now }
    requires within { (i m : ℕ) → slice_get ranks.now i ≡ Some (Some m) → m < count }
    ensures { IfOk result (λ parts. (g : Picture)
        → AreAllSplit (stand_for g entries.now) ranks.now count (map (stand_for g) parts.items)) }
{
    let sizes = sizes_of(alloc, ranks, count)?;
    let mut parts = empty_parts(alloc, &sizes)?;
    for k in 0..entries.len() {
        put(&mut parts, ranks[k], entries[k])?;
    }
    Ok(parts)
}

/// Adds a symbol or box at the end of a network, with a copy of what the drawing has of it.
#[inline(never)]
fn push_symbol(alloc: Global, network: &mut Network, element: Seen) -> Result<(), AllocError>
    ensures { OnOk result (network.new ≡ network.old ++ element_seen element.entry ∷ []) }
{
    let element = element.copied(alloc)?;
    network.push(element)
}

/// Adds an element at the end of a network. Lines are put by themselves, since there are the most of them.
fn push_copy(alloc: Global, network: &mut Network, element: Seen) -> Result<(), AllocError>
    ensures { OnOk result (network.new ≡ network.old ++ element_seen element.entry ∷ []) }
{
    match element {
        Seen::Wire(at) => network.push(Element::Wire(at)),
        Seen::Join(at) => network.push(Element::Join(at)),
        Seen::Upright(at) => network.push(Element::Upright(at)),
        Seen::Contact(_) | Seen::Coil(_) | Seen::Box(_) => push_symbol(alloc, network, element),
    }
}

/// The network of these entries, with copies of what the drawing has of its elements.
fn network_of(alloc: Global, drawing: &Drawing, entries: &[Entry]) -> Result<Network, AllocError>
    ensures { IfOk result (λ network. network ≡ stand_for drawing.now entries.now) }
{
    let mut network = Network::with_capacity(alloc, entries.len())?;
    for entry in entries {
        push_copy(alloc, &mut network, entry_seen(drawing, *entry))?;
    }
    Ok(network)
}

/// The network of each part.
fn networks_of(alloc: Global, drawing: &Drawing, parts: &[Part]) -> Result<Vec<Network>, AllocError>
    ensures { IfOk result (λ networks. networks.items ≡ map (stand_for drawing.now) parts.now) }
{
    let mut networks = Vec::with_capacity(alloc, parts.len())?;
    for part in parts {
        networks.push(network_of(alloc, drawing, part.entries())?)?;
    }
    Ok(networks)
}

/// Puts a copy of each element into the network of its rank. Entries are split first, and then a network is written at once, since they are small.
pub fn split(
    alloc: Global,
    elements: &Elements,
    ranks: &[Option<u32>],
    count: usize,
) -> Result<Vec<Network>, AllocError>
    requires long { length ranks.now ≡ length elements.now }
    requires within { (i m : ℕ) → slice_get ranks.now i ≡ Some (Some m) → m < count }
    ensures { IfOk result (λ networks. AreAllSplit elements.now ranks.now count networks.items) }
{
    let (drawing, entries) = elements.parts();
    let parts = split_entries(alloc, entries, ranks, count)?;
    networks_of(alloc, drawing, &parts)
}
