use std::alloc::{AllocError, Global};
use std::marker::Model;

/// Tickets of commands, in a list.
#[derive(Drop)]
pub struct Tickets {
    listed: Vec<u64>,
}

impl Model for Tickets {
    ghost use Rattle.std.specs.Prelude.{List, ℕ};

    ghost Value = { List ℕ };

    ghost view = { λ t. t.listed.items };
}

ghost use Rattle.std.specs.Prelude.{◌≡◌, ◌↔◌, ◌<◌, [], ◌∷◌, ◌++◌, IfSome, IsTrue, OnOk};

impl Tickets {
    /// No tickets.
    pub(crate) fn new(alloc: Global) -> Tickets
        ensures { result ≡ [] }
    {
        Tickets {
            listed: Vec::new(alloc),
        }
    }

    /// Appends a ticket.
    pub(crate) fn push(&mut self, ticket: u64) -> Result<(), AllocError>
        ensures { OnOk result (self.new ≡ self.old ++ ticket ∷ []) }
    {
        self.listed.push(ticket)?;
        Ok(())
    }

    /// The tickets as a slice.
    pub fn as_slice(&self) -> &[u64]
        ensures { result.now ≡ self.now }
    {
        self.listed.as_slice()
    }
}

/// Whether a ticket is above the last one before it.
pub(crate) fn is_above(ticket: u64, last: Option<u64>) -> bool
    ensures { IsTrue result ↔ IfSome last (λ before. before < ticket) }
{
    match last {
        Some(before) => before < ticket,
        None => true,
    }
}
