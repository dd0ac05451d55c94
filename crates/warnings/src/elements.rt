//! The elements of a drawing in the order of their evaluation.

ghost use Rattle.std.specs.Prelude.{◌≡◌, ◌++◌, OnOk, IfOk, map};
ghost use Rattle.warnings.specs.Found.{all_elements};

use network::{Element, Graph};
use std::alloc::{AllocError, Global};

/// Adds the elements of a network.
fn push_elements<'a>(all: &mut Vec<&'a Element>, elements: &'a [Element]) -> Result<(), AllocError>
    ensures { OnOk result (map (λ e. e.now) all.new.items ≡ map (λ e. e.now) all.old.items ++ elements.now) }
{
    for element in elements {
        all.push(element)?;
    }
    Ok(())
}

/// All elements, network after network.
pub fn elements_of<'a>(alloc: Global, graph: &'a Graph) -> Result<Vec<&'a Element>, AllocError>
    ensures { IfOk result (λ all. map (λ e. e.now) all.items ≡ all_elements graph.now) }
{
    let mut all = Vec::new(alloc);
    for network in graph.networks() {
        push_elements(&mut all, network.elements())?;
    }
    Ok(all)
}
