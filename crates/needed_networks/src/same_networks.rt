//! Whether the networks of a graph are those of a ladder that aren't left out.

ghost use Rattle.std.specs.Prelude.{◌≡◌, IsTrue, map};
ghost use Rattle.network.specs.Links.{Diagram};
ghost use Rattle.needed_networks.specs.Slices.{kept_networks};

use crate::places::has_mark;
use network::{Element, Network, are_same_elements};
use power_flow::Ladder;

/// Whether these are the elements of a network.
fn has_elements(network: &Network, elements: &[Element]) -> bool
    ensures { IsTrue result → network.now ≡ elements.now }
{
    are_same_elements(network.elements(), elements)
}

/// Whether these are the networks of a ladder that aren't left out, element by element.
pub(crate) fn are_kept(ladder: &Ladder, omitted: &[bool], networks: &[Network]) -> bool
    ensures { IsTrue result → networks.now ≡ map (λ (d : Diagram). d.elements) (kept_networks omitted.now ladder.now.networks) }
{
    let mut next = 0;
    for k in 0..usize::MAX {
        let Some(elements) = ladder.elements(k) else {
            return next == networks.len();
        };
        if has_mark(omitted, k) {
            continue;
        }
        match networks.get(next) {
            Some(network) if has_elements(network, elements) => next += 1,
            _ => return false,
        }
    }
    false
}
