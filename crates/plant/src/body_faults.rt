//! The faults of a program's body.

ghost use Rattle.std.specs.Prelude.{◌≡◌, Some};

use crate::plant_fault::{BodyFault, PlantFault, PlantFaultKind};
use ladder_text::{DrawFault, DrawFaultKind};
use name_faults::{BindFault, BindKind};
use network::{GraphFault, GraphFaultKind};

/// The fault of a body on a line.
fn body_fault(kind: PlantFaultKind, line: u64, inner: BodyFault) -> PlantFault
    ensures { result ≡ record { kind = kind; line = line; inner = Some inner } }
{
    PlantFault {
        kind,
        line,
        inner: Some(inner),
    }
}

impl From<DrawFault> for PlantFault {
    ghost use Rattle.plant.specs.Faults.{HandsOnDrawing};

    ghost from_gives = { λ found fault. HandsOnDrawing found fault };

    fn from(fault: DrawFault) -> PlantFault {
        match fault.kind {
            DrawFaultKind::Memory => PlantFault::at(PlantFaultKind::Memory, 0),
            kind => body_fault(
                PlantFaultKind::Drawing,
                fault.line,
                BodyFault::Drawing(kind),
            ),
        }
    }
}

impl From<GraphFault> for PlantFault {
    ghost use Rattle.plant.specs.Faults.{HandsOnNetworks};

    ghost from_gives = { λ found fault. HandsOnNetworks found fault };

    fn from(fault: GraphFault) -> PlantFault {
        match fault.kind {
            GraphFaultKind::Memory => PlantFault::at(PlantFaultKind::Memory, 0),
            kind => body_fault(PlantFaultKind::Graph, fault.line, BodyFault::Graph(kind)),
        }
    }
}

impl From<BindFault> for PlantFault {
    ghost use Rattle.plant.specs.Faults.{HandsOnNames};

    ghost from_gives = { λ found fault. HandsOnNames found fault };

    fn from(fault: BindFault) -> PlantFault {
        match fault.kind {
            BindKind::Memory => PlantFault::at(PlantFaultKind::Memory, 0),
            kind => body_fault(PlantFaultKind::Bind, fault.line, BodyFault::Bind(kind)),
        }
    }
}
