ghost use Rattle.std.specs.Prelude.{◌≡◌, ◌<◌, ◌+◌, ◌↔◌, IfOk, IsTrue, length};
ghost use Rattle.std.specs.Bool.{OnTrue};
ghost use Rattle.network.specs.Apart.{AreOnPage};
ghost use Rattle.power_flow.specs.Steps.Comings.{AreStacked, ComesAbove, ComesBelow, AreUprightsOn};

use crate::steps::steps::stands_at;
use drawings::Place;
use network::Element;
use std::alloc::{AllocError, Global};

/// Whether an element and the next one are places of one upright, the next one right below.
fn are_stacked(elements: &[Element], k: usize) -> bool
    requires within { k < length elements.now }
    requires page { AreOnPage elements.now }
    ensures stacked { IsTrue result ↔ AreStacked elements.now k }
    ensures within { OnTrue result (k + 1 < length elements.now) }
{
    let at = elements[k].first_place();
    let below = Place {
        row: at.row + 1,
        ..at
    };
    if !elements[k].stands_at(at) {
        return false;
    }
    stands_at(elements, k + 1, below)
}

/// Whether state comes to an element, or to one above it in its upright.
fn comes_above(elements: &[Element], comings: &[bool], k: usize) -> bool
    requires within { k < length elements.now }
    requires page { AreOnPage elements.now }
    requires long { length comings.now ≡ length elements.now }
    ensures { IsTrue result ↔ ComesAbove elements.now comings.now k }
{
    if comings[k] {
        return true;
    }
    if k == 0 {
        return false;
    }
    if !are_stacked(elements, k - 1) {
        return false;
    }
    comes_above(elements, comings, k - 1)
}

/// Whether state comes to an element, or to one below it in its upright.
fn comes_below(elements: &[Element], comings: &[bool], k: usize) -> bool
    requires within { k < length elements.now }
    requires page { AreOnPage elements.now }
    requires long { length comings.now ≡ length elements.now }
    ensures { IsTrue result ↔ ComesBelow elements.now comings.now k }
{
    if comings[k] {
        return true;
    }
    if !are_stacked(elements, k) {
        return false;
    }
    comes_below(elements, comings, k + 1)
}

/// Of each element whether state comes to it, or to a place of its upright.
pub fn join_uprights(
    alloc: Global,
    elements: &[Element],
    comings: &[bool],
) -> Result<Vec<bool>, AllocError>
    requires page { AreOnPage elements.now }
    requires long { length comings.now ≡ length elements.now }
    ensures { IfOk result (λ power. AreUprightsOn elements.now comings.now (length elements.now) power.items) }
{
    let mut power = Vec::with_capacity(alloc, elements.len())?;
    for k in 0..elements.len() {
        let above = comes_above(elements, comings, k);
        let below = comes_below(elements, comings, k);
        power.push(above || below)?;
    }
    Ok(power)
}
