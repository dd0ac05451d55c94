use std::alloc::{AllocError, Global};
use std::marker::Model;

/// Incarnations of a resource, in a list.
#[derive(Drop)]
pub(crate) struct Incarnations {
    listed: Vec<u32>,
}

impl Model for Incarnations {
    ghost use Rattle.std.specs.Prelude.{List, ℕ};

    ghost Value = { List ℕ };

    ghost view = { λ i. i.listed.items };
}

ghost use Rattle.std.specs.Prelude.{◌≡◌, ◌↔◌, [], ◌∷◌, ◌++◌, IsTrue, IfOk, OnOk, Contains};

impl Incarnations {
    /// The first one alone.
    pub(crate) fn of(alloc: Global, first: u32) -> Result<Incarnations, AllocError>
        ensures { IfOk result (λ one. one ≡ first ∷ []) }
    {
        let mut listed = Vec::new(alloc);
        listed.push(first)?;
        Ok(Incarnations { listed })
    }

    /// Appends a later one.
    pub(crate) fn push(&mut self, incarnation: u32) -> Result<(), AllocError>
        ensures { OnOk result (self.new ≡ self.old ++ incarnation ∷ []) }
    {
        self.listed.push(incarnation)?;
        Ok(())
    }

    /// Whether an incarnation is among these.
    pub(crate) fn have(&self, incarnation: u32) -> bool
        ensures { IsTrue result ↔ Contains self.now incarnation }
    {
        self.listed.as_slice().contains(&incarnation)
    }
}
