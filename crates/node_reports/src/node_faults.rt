use crate::node_fault::NodeFault;
use crate::tickets::is_above;
use std::alloc::{AllocError, Global};
use std::marker::Model;

/// The faults of a run by ticket: at most one for each, the first.
#[derive(Drop)]
pub struct NodeFaults {
    listed: Vec<NodeFault>,
}

impl Model for NodeFaults {
    ghost use Rattle.std.specs.Prelude.{List};
    ghost use Rattle.node_reports.specs.declared.node_fault.NodeFault.{NodeFault};

    ghost Value = { List NodeFault };

    ghost view = { λ f. f.listed.items };
}

ghost use Rattle.std.specs.Prelude.{◌≡◌, IfOk};
ghost use Rattle.std.specs.List.Sorted.{IsNonDecreasingBy};
ghost use Rattle.node_reports.specs.Reports.{AreByTicket};

/// Of faults in the order of their tickets, the first of each ticket.
fn first_of_each(alloc: Global, sorted: &[NodeFault]) -> Result<Vec<NodeFault>, AllocError>
    requires { IsNonDecreasingBy (λ f. f.ticket) sorted.now }
    ensures { IfOk result (λ listed. AreByTicket sorted.now listed.items) }
{
    let mut listed = Vec::new(alloc);
    let mut last = None;
    for k in 0..sorted.len() {
        let fault = sorted[k];
        if is_above(fault.ticket, last) {
            listed.push(fault)?;
            last = Some(fault.ticket);
        }
    }
    Ok(listed)
}

impl NodeFaults {
    /// These faults by ticket. Of those of one ticket the first stays.
    pub(crate) fn of(alloc: Global, noted: Vec<NodeFault>) -> Result<NodeFaults, AllocError>
        ensures { IfOk result (λ listed. AreByTicket noted.items listed) }
    {
        let mut sorted = noted;
        sorted.sort_by_key(|fault| fault.ticket)?;
        Ok(NodeFaults {
            listed: first_of_each(alloc, sorted.as_slice())?,
        })
    }

    /// The faults as a slice.
    pub fn as_slice(&self) -> &[NodeFault]
        ensures { result.now ≡ self.now }
    {
        self.listed.as_slice()
    }
}
