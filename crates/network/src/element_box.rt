use drawings::DrawnBox;
use std::alloc::{AllocError, Global};
use std::marker::Model;

/// A drawn box that lies apart on the heap, so that the other elements need no room for one.
#[derive(Drop)]
pub struct ElementBox {
    drawn: Box<DrawnBox>,
}

impl Model for ElementBox {
    ghost use Rattle.drawings.specs.declared.drawn_box.DrawnBox.{DrawnBox};

    ghost Value = { DrawnBox };

    ghost view = { λ b. b.drawn.value };
}

impl ElementBox {
    ghost use Rattle.std.specs.Prelude.{◌≡◌, IfOk};

    /// Puts a drawn box on the heap.
    pub fn new(alloc: Global, drawn: DrawnBox) -> Result<Self, AllocError>
        ensures { IfOk result (λ b. b ≡ drawn) }
    {
        let drawn = Box::new(alloc, drawn)?;
        Ok(ElementBox { drawn })
    }

    /// The drawn box.
    pub fn drawn(&self) -> &DrawnBox
        ensures { result.now ≡ self.now }
    {
        &self.drawn
    }
}
