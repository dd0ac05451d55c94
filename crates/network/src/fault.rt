use drawings::Place;
use std::alloc::AllocError;
use thiserror::Error;

/// Why a drawing has no networks, in the order in which it is sought.
#[derive(Clone, Copy, Debug, PartialEq, Eq)]
pub enum GraphFaultKind {
    /// A network doesn't meet the left rail.
    Unattached,
    /// A network has more than 200 rows from its topmost to its lowest.
    TooTall,
    /// Two boxes have one instance's name, case aside.
    InstanceTwice,
    /// Memory ran out.
    Memory,
}

/// Why a drawing has no networks, and where: at the first place of a network, or at the corner of the later box.
///
/// Where memory ran out, line and column are 0.
#[derive(Clone, Copy, Debug, PartialEq, Eq, Error)]
#[error("{line}:{column}: {kind:?}")]
pub struct GraphFault {
    pub kind: GraphFaultKind,
    /// The number of the line, counted on from that of the drawing's first.
    pub line: u64,
    /// The column, from 1 on.
    pub column: usize,
}

ghost use Rattle.std.specs.Prelude.{◌≡◌};
ghost use Rattle.network.specs.Networks.{GraphFaultLiesAt};

/// The fault at a place of a drawing that begins with this line.
pub fn fault_at(kind: GraphFaultKind, first_line: u64, place: Place) -> GraphFault
    ensures kind { result.kind ≡ kind }
    ensures found { GraphFaultLiesAt first_line place result }
{
    GraphFault {
        kind,
        line: first_line.saturating_add(place.row.saturating_sub(1) as u64),
        column: place.column,
    }
}

/// Memory ran out.
pub fn no_memory(_fault: AllocError) -> GraphFault
    ensures { result ≡ record { kind = GraphFaultKind.Memory; line = 0; column = 0 } }
{
    GraphFault {
        kind: GraphFaultKind::Memory,
        line: 0,
        column: 0,
    }
}
