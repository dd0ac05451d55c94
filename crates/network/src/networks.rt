use crate::element::Element;
use std::alloc::{AllocError, Global};
use std::marker::Model;

/// The elements of a network, by column and then row.
#[derive(Drop)]
pub struct Network {
    elements: Vec<Element>,
}

impl Model for Network {
    ghost use Rattle.std.specs.Prelude.{List};
    ghost use Rattle.network.specs.declared.element.Element.{Element};

    ghost Value = { List Element };

    ghost view = { λ n. n.elements.items };
}

impl Network {
    ghost use Rattle.std.specs.Prelude.{◌≡◌, [], ◌∷◌, ◌++◌, IfOk, OnOk};

    /// A network without elements, with room for so many.
    pub(crate) fn with_capacity(alloc: Global, capacity: usize) -> Result<Self, AllocError>
        ensures { IfOk result (λ network. network ≡ []) }
    {
        let elements = Vec::with_capacity(alloc, capacity)?;
        Ok(Network { elements })
    }

    /// Adds an element at the end.
    pub(crate) fn push(&mut self, element: Element) -> Result<(), AllocError>
        ensures { OnOk result (self.new ≡ self.old ++ element ∷ []) }
    {
        self.elements.push(element)?;
        Ok(())
    }

    /// The elements, by the column and then the row of their first place.
    pub fn elements(&self) -> &[Element]
        ensures { result.now ≡ self.now }
    {
        &self.elements
    }

    /// The list of the elements itself.
    pub fn into_elements(self) -> Vec<Element>
        ensures { result.items ≡ self }
    {
        let Network { elements } = self;
        elements
    }
}
