ghost use Rattle.std.specs.Prelude.{◌≡◌, [], false, true, IfOk, Contains};
ghost use Rattle.node_reports.specs.Reports.{fault_tickets};
ghost use Rattle.node.specs.Steps.Keeping.{IsNoted, NotesAtMost, NotesMore};

use node_reports::{Cause, NodeFault};
use std::alloc::{AllocError, Global};

/// The faults that were noted of commands, and whether one was lost for want of memory.
#[derive(Drop)]
pub(crate) struct Noted {
    pub listed: Vec<NodeFault>,
    pub is_lost: bool,
}

impl Noted {
    /// Room for so many faults.
    pub fn with_room(alloc: Global, room: usize) -> Result<Noted, AllocError>
        ensures none { IfOk result (λ noted. noted.listed.items ≡ []) }
        ensures whole { IfOk result (λ noted. noted.is_lost ≡ false) }
    {
        Ok(Noted {
            listed: Vec::with_capacity(alloc, room)?,
            is_lost: false,
        })
    }

    /// For how many faults there is room.
    pub fn room(&self) -> usize {
        self.listed.capacity()
    }

    /// Whether the last fault that was noted is of this ticket.
    fn is_last(&self, ticket: u64) -> bool
        ensures { result ≡ true → Contains (fault_tickets self.now.listed.items) ticket }
    {
        match self.listed.last() {
            Some(last) => last.ticket == ticket,
            None => false,
        }
    }

    /// Notes a fault, if it is the first one of its ticket. The faults of one ticket are noted one after the other, and there is room for one of each.
    #[tactic(auto, using(crate::proofs::Noting::notes_pushed, crate::proofs::Noting::noted_pushed))]
    pub fn note(&mut self, resource: usize, ticket: u64, cause: Cause)
        ensures noted { IsNoted self.new ticket }
        ensures more { NotesMore self.old self.new }
        ensures told { NotesAtMost self.old.listed.items self.new.listed.items (record { resource = resource; ticket = ticket; cause = cause }) }
    {
        if self.is_last(ticket) {
            return;
        }
        let fault = NodeFault {
            resource,
            ticket,
            cause,
        };
        let Ok(()) = self.listed.push(fault) else {
            self.is_lost = true;
            return;
        };
    }

    /// Says that what was done isn't whole.
    pub fn lose(&mut self)
        ensures lost { self.new.is_lost ≡ true }
        ensures more { NotesMore self.old self.new }
    {
        self.is_lost = true;
    }
}
