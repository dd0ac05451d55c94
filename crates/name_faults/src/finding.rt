ghost use Rattle.std.specs.Prelude.{◌≡◌};
ghost use Rattle.std.specs.Bool.{OnTrue, OnFalse};
ghost use Rattle.name_faults.specs.Findings.{ComesNoLater, bind_fault};
ghost use Rattle.name_faults.specs.Steps.Earlier.{IsEarlierFinding};

use crate::bind_fault::{BindFault, BindKind};

/// A fault, in the order in which faults are sought: by kind, then by row, then by column.
#[derive(Clone, Copy, PartialEq, Eq, PartialOrd, Ord)]
pub struct Finding {
    pub kind: BindKind,
    pub row: usize,
    pub column: usize,
}

/// Whether a fault comes no later than another: by kind, then by row, then by column.
fn is_up_to(one: Finding, other: Finding) -> bool
    ensures yes { OnTrue result (ComesNoLater one other) }
    ensures no { OnFalse result (ComesNoLater other one) }
{
    one <= other
}

/// The one that comes first.
pub fn earlier(one: Option<Finding>, other: Option<Finding>) -> Option<Finding>
    ensures { IsEarlierFinding one other result }
{
    match (one, other) {
        (found, None) => found,
        (None, found) => found,
        (Some(one), Some(other)) => {
            if is_up_to(one, other) {
                Some(one)
            } else {
                Some(other)
            }
        }
    }
}

/// A fault as it is answered, in a drawing whose first line has this number.
pub fn fault_at(first_line: u64, finding: Finding) -> BindFault
    ensures { result ≡ bind_fault first_line finding }
{
    BindFault {
        kind: finding.kind,
        line: first_line.saturating_add(finding.row.saturating_sub(1) as u64),
        column: finding.column,
    }
}
