ghost use Rattle.std.specs.Prelude.{◌≡◌};
ghost use Rattle.guidance.specs.Steps.Advices.{IsAdviceOn};
ghost use Rattle.guidance.specs.Topics.{of_drawing, of_networks, of_names, of_body, of_plant};

use crate::advice::{Advice, Layer};
use crate::table;
use ladder_text::DrawFaultKind;
use name_faults::BindKind;
use network::GraphFaultKind;
use plant::{BodyFault, PlantFault, PlantFaultKind};
use warnings::WarningKind;

/// A kind of fault of a text, by the layer that refuses it, or of what is warned of.
#[derive(Clone, Copy)]
pub enum Topic {
    NotAscii,
    TooLarge,
    NoLeftRail,
    BadBox,
    BadMark,
    Crossing,
    NoSource,
    NameMissing,
    StrayName,
    Unattached,
    TooTall,
    InstanceTwice,
    UnknownName,
    WrongKind,
    WritesInput,
    UnknownPin,
    PinMissing,
    LiteralOutOfRange,
    PlantSyntax,
    BodyDrawing,
    BodyGraph,
    BodyBind,
    PlantNameTwice,
    PlantUnknownName,
    PlantWrongKind,
    InputBoundTwice,
    TooMany,
    TooLong,
    ScheduleSyntax,
    DoubleCoil,
    MistypedContact,
    PresetBetweenScans,
    NeverRead,
    UnboundInput,
    FarAddress,
}

/// All kinds, in the order of the layers.
pub const TOPICS: [Topic; 35] = [
    Topic::NotAscii,
    Topic::TooLarge,
    Topic::NoLeftRail,
    Topic::BadBox,
    Topic::BadMark,
    Topic::Crossing,
    Topic::NoSource,
    Topic::NameMissing,
    Topic::StrayName,
    Topic::Unattached,
    Topic::TooTall,
    Topic::InstanceTwice,
    Topic::UnknownName,
    Topic::WrongKind,
    Topic::WritesInput,
    Topic::UnknownPin,
    Topic::PinMissing,
    Topic::LiteralOutOfRange,
    Topic::PlantSyntax,
    Topic::BodyDrawing,
    Topic::BodyGraph,
    Topic::BodyBind,
    Topic::PlantNameTwice,
    Topic::PlantUnknownName,
    Topic::PlantWrongKind,
    Topic::InputBoundTwice,
    Topic::TooMany,
    Topic::TooLong,
    Topic::ScheduleSyntax,
    Topic::DoubleCoil,
    Topic::MistypedContact,
    Topic::PresetBetweenScans,
    Topic::NeverRead,
    Topic::UnboundInput,
    Topic::FarAddress,
];

impl Topic {
    /// What is told of it.
    pub fn advice(self) -> Advice
        ensures { IsAdviceOn self result }
    {
        match self {
            Topic::NotAscii => Advice {
                layer: Layer::Drawing,
                kind: "NotAscii",
                sentence: table::NOT_ASCII,
                example: table::NOT_ASCII_REFUSED,
                mended: table::NOT_ASCII_MENDED,
            },
            Topic::TooLarge => Advice {
                layer: Layer::Drawing,
                kind: "TooLarge",
                sentence: table::TOO_LARGE,
                example: table::TOO_LARGE_REFUSED,
                mended: table::TOO_LARGE_MENDED,
            },
            Topic::NoLeftRail => Advice {
                layer: Layer::Drawing,
                kind: "NoLeftRail",
                sentence: table::NO_LEFT_RAIL,
                example: table::NO_LEFT_RAIL_REFUSED,
                mended: table::NO_LEFT_RAIL_MENDED,
            },
            Topic::BadBox => Advice {
                layer: Layer::Drawing,
                kind: "BadBox",
                sentence: table::BAD_BOX,
                example: table::BAD_BOX_REFUSED,
                mended: table::BAD_BOX_MENDED,
            },
            Topic::BadMark => Advice {
                layer: Layer::Drawing,
                kind: "BadMark",
                sentence: table::BAD_MARK,
                example: table::BAD_MARK_REFUSED,
                mended: table::BAD_MARK_MENDED,
            },
            Topic::Crossing => Advice {
                layer: Layer::Drawing,
                kind: "Crossing",
                sentence: table::CROSSING,
                example: table::CROSSING_REFUSED,
                mended: table::CROSSING_MENDED,
            },
            Topic::NoSource => Advice {
                layer: Layer::Drawing,
                kind: "NoSource",
                sentence: table::NO_SOURCE,
                example: table::NO_SOURCE_REFUSED,
                mended: table::NO_SOURCE_MENDED,
            },
            Topic::NameMissing => Advice {
                layer: Layer::Drawing,
                kind: "NameMissing",
                sentence: table::NAME_MISSING,
                example: table::NAME_MISSING_REFUSED,
                mended: table::NAME_MISSING_MENDED,
            },
            Topic::StrayName => Advice {
                layer: Layer::Drawing,
                kind: "StrayName",
                sentence: table::STRAY_NAME,
                example: table::STRAY_NAME_REFUSED,
                mended: table::STRAY_NAME_MENDED,
            },
            Topic::Unattached => Advice {
                layer: Layer::Networks,
                kind: "Unattached",
                sentence: table::UNATTACHED,
                example: table::UNATTACHED_REFUSED,
                mended: table::UNATTACHED_MENDED,
            },
            Topic::TooTall => Advice {
                layer: Layer::Networks,
                kind: "TooTall",
                sentence: table::TOO_TALL,
                example: table::TOO_TALL_REFUSED,
                mended: table::TOO_TALL_MENDED,
            },
            Topic::InstanceTwice => Advice {
                layer: Layer::Networks,
                kind: "InstanceTwice",
                sentence: table::INSTANCE_TWICE,
                example: table::INSTANCE_TWICE_REFUSED,
                mended: table::INSTANCE_TWICE_MENDED,
            },
            Topic::UnknownName => Advice {
                layer: Layer::Names,
                kind: "UnknownName",
                sentence: table::UNKNOWN_NAME,
                example: table::UNKNOWN_NAME_REFUSED,
                mended: table::UNKNOWN_NAME_MENDED,
            },
            Topic::WrongKind => Advice {
                layer: Layer::Names,
                kind: "WrongKind",
                sentence: table::WRONG_KIND,
                example: table::WRONG_KIND_REFUSED,
                mended: table::WRONG_KIND_MENDED,
            },
            Topic::WritesInput => Advice {
                layer: Layer::Names,
                kind: "WritesInput",
                sentence: table::WRITES_INPUT,
                example: table::WRITES_INPUT_REFUSED,
                mended: table::WRITES_INPUT_MENDED,
            },
            Topic::UnknownPin => Advice {
                layer: Layer::Names,
                kind: "UnknownPin",
                sentence: table::UNKNOWN_PIN,
                example: table::UNKNOWN_PIN_REFUSED,
                mended: table::UNKNOWN_PIN_MENDED,
            },
            Topic::PinMissing => Advice {
                layer: Layer::Names,
                kind: "PinMissing",
                sentence: table::PIN_MISSING,
                example: table::PIN_MISSING_REFUSED,
                mended: table::PIN_MISSING_MENDED,
            },
            Topic::LiteralOutOfRange => Advice {
                layer: Layer::Names,
                kind: "LiteralOutOfRange",
                sentence: table::LITERAL_OUT_OF_RANGE,
                example: table::LITERAL_OUT_OF_RANGE_REFUSED,
                mended: table::LITERAL_OUT_OF_RANGE_MENDED,
            },
            Topic::PlantSyntax => Advice {
                layer: Layer::Plant,
                kind: "Syntax",
                sentence: table::PLANT_SYNTAX,
                example: table::PLANT_SYNTAX_REFUSED,
                mended: table::PLANT_SYNTAX_MENDED,
            },
            Topic::BodyDrawing => Advice {
                layer: Layer::Plant,
                kind: "Drawing",
                sentence: table::BODY_DRAWING,
                example: table::BODY_DRAWING_REFUSED,
                mended: table::BODY_DRAWING_MENDED,
            },
            Topic::BodyGraph => Advice {
                layer: Layer::Plant,
                kind: "Graph",
                sentence: table::BODY_GRAPH,
                example: table::BODY_GRAPH_REFUSED,
                mended: table::BODY_GRAPH_MENDED,
            },
            Topic::BodyBind => Advice {
                layer: Layer::Plant,
                kind: "Bind",
                sentence: table::BODY_BIND,
                example: table::BODY_BIND_REFUSED,
                mended: table::BODY_BIND_MENDED,
            },
            Topic::PlantNameTwice => Advice {
                layer: Layer::Plant,
                kind: "NameTwice",
                sentence: table::PLANT_NAME_TWICE,
                example: table::PLANT_NAME_TWICE_REFUSED,
                mended: table::PLANT_NAME_TWICE_MENDED,
            },
            Topic::PlantUnknownName => Advice {
                layer: Layer::Plant,
                kind: "UnknownName",
                sentence: table::PLANT_UNKNOWN_NAME,
                example: table::PLANT_UNKNOWN_NAME_REFUSED,
                mended: table::PLANT_UNKNOWN_NAME_MENDED,
            },
            Topic::PlantWrongKind => Advice {
                layer: Layer::Plant,
                kind: "WrongKind",
                sentence: table::PLANT_WRONG_KIND,
                example: table::PLANT_WRONG_KIND_REFUSED,
                mended: table::PLANT_WRONG_KIND_MENDED,
            },
            Topic::InputBoundTwice => Advice {
                layer: Layer::Plant,
                kind: "InputBoundTwice",
                sentence: table::INPUT_BOUND_TWICE,
                example: table::INPUT_BOUND_TWICE_REFUSED,
                mended: table::INPUT_BOUND_TWICE_MENDED,
            },
            Topic::TooMany => Advice {
                layer: Layer::Plant,
                kind: "TooMany",
                sentence: table::TOO_MANY,
                example: table::TOO_MANY_REFUSED,
                mended: table::TOO_MANY_MENDED,
            },
            Topic::TooLong => Advice {
                layer: Layer::Plan,
                kind: "TooLong",
                sentence: table::TOO_LONG,
                example: table::TOO_LONG_REFUSED,
                mended: table::TOO_LONG_MENDED,
            },
            Topic::ScheduleSyntax => Advice {
                layer: Layer::Schedule,
                kind: "Syntax",
                sentence: table::SCHEDULE_SYNTAX,
                example: table::SCHEDULE_SYNTAX_REFUSED,
                mended: table::SCHEDULE_SYNTAX_MENDED,
            },
            Topic::DoubleCoil => Advice {
                layer: Layer::WarnedDrawing,
                kind: "DoubleCoil",
                sentence: WarningKind::DoubleCoil.sentence(),
                example: table::DOUBLE_COIL_WARNED,
                mended: table::DOUBLE_COIL_MENDED,
            },
            Topic::MistypedContact => Advice {
                layer: Layer::WarnedDrawing,
                kind: "MistypedContact",
                sentence: WarningKind::MistypedContact.sentence(),
                example: table::MISTYPED_CONTACT_WARNED,
                mended: table::MISTYPED_CONTACT_MENDED,
            },
            Topic::PresetBetweenScans => Advice {
                layer: Layer::WarnedDrawing,
                kind: "PresetBetweenScans",
                sentence: WarningKind::PresetBetweenScans.sentence(),
                example: table::PRESET_BETWEEN_SCANS_WARNED,
                mended: table::PRESET_BETWEEN_SCANS_MENDED,
            },
            Topic::NeverRead => Advice {
                layer: Layer::WarnedPlant,
                kind: "NeverRead",
                sentence: WarningKind::NeverRead.sentence(),
                example: table::NEVER_READ_WARNED,
                mended: table::NEVER_READ_MENDED,
            },
            Topic::UnboundInput => Advice {
                layer: Layer::WarnedPlant,
                kind: "UnboundInput",
                sentence: table::UNBOUND_INPUT,
                example: table::UNBOUND_INPUT_WARNED,
                mended: table::UNBOUND_INPUT_MENDED,
            },
            Topic::FarAddress => Advice {
                layer: Layer::WarnedPlant,
                kind: "FarAddress",
                sentence: table::FAR_ADDRESS,
                example: table::FAR_ADDRESS_WARNED,
                mended: table::FAR_ADDRESS_MENDED,
            },
        }
    }

    /// A drawing's fault. `None`: memory.
    pub fn of_drawing(kind: DrawFaultKind) -> Option<Topic>
        ensures { result ≡ of_drawing kind }
    {
        match kind {
            DrawFaultKind::NotAscii => Some(Topic::NotAscii),
            DrawFaultKind::TooLarge => Some(Topic::TooLarge),
            DrawFaultKind::NoLeftRail => Some(Topic::NoLeftRail),
            DrawFaultKind::BadBox => Some(Topic::BadBox),
            DrawFaultKind::BadMark => Some(Topic::BadMark),
            DrawFaultKind::Crossing => Some(Topic::Crossing),
            DrawFaultKind::NoSource => Some(Topic::NoSource),
            DrawFaultKind::NameMissing => Some(Topic::NameMissing),
            DrawFaultKind::StrayName => Some(Topic::StrayName),
            DrawFaultKind::Memory => None,
        }
    }

    /// A fault of a drawing's networks. `None`: memory.
    pub fn of_networks(kind: GraphFaultKind) -> Option<Topic>
        ensures { result ≡ of_networks kind }
    {
        match kind {
            GraphFaultKind::Unattached => Some(Topic::Unattached),
            GraphFaultKind::TooTall => Some(Topic::TooTall),
            GraphFaultKind::InstanceTwice => Some(Topic::InstanceTwice),
            GraphFaultKind::Memory => None,
        }
    }

    /// A fault of a drawing's names. `None`: memory.
    pub fn of_names(kind: BindKind) -> Option<Topic>
        ensures { result ≡ of_names kind }
    {
        match kind {
            BindKind::UnknownName => Some(Topic::UnknownName),
            BindKind::WrongKind => Some(Topic::WrongKind),
            BindKind::WritesInput => Some(Topic::WritesInput),
            BindKind::UnknownPin => Some(Topic::UnknownPin),
            BindKind::PinMissing => Some(Topic::PinMissing),
            BindKind::LiteralOutOfRange => Some(Topic::LiteralOutOfRange),
            BindKind::Memory => None,
        }
    }

    /// A fault of a program's body. `None`: memory.
    fn of_body(fault: BodyFault) -> Option<Topic>
        ensures { result ≡ of_body fault }
    {
        match fault {
            BodyFault::Drawing(kind) => Topic::of_drawing(kind),
            BodyFault::Graph(kind) => Topic::of_networks(kind),
            BodyFault::Bind(kind) => Topic::of_names(kind),
        }
    }

    /// A plant's fault; that of a body is its drawing's. `None`: memory.
    pub fn of_plant(fault: PlantFault) -> Option<Topic>
        ensures { result ≡ of_plant fault.kind fault.inner }
    {
        if let Some(inner) = fault.inner {
            return Topic::of_body(inner);
        }
        match fault.kind {
            PlantFaultKind::Syntax => Some(Topic::PlantSyntax),
            PlantFaultKind::Drawing => Some(Topic::BodyDrawing),
            PlantFaultKind::Graph => Some(Topic::BodyGraph),
            PlantFaultKind::Bind => Some(Topic::BodyBind),
            PlantFaultKind::NameTwice => Some(Topic::PlantNameTwice),
            PlantFaultKind::UnknownName => Some(Topic::PlantUnknownName),
            PlantFaultKind::WrongKind => Some(Topic::PlantWrongKind),
            PlantFaultKind::InputBoundTwice => Some(Topic::InputBoundTwice),
            PlantFaultKind::TooMany => Some(Topic::TooMany),
            PlantFaultKind::Memory => None,
        }
    }
}
