ghost use Rattle.std.specs.Prelude.{◌≡◌, None};
ghost use Rattle.plant.specs.Faults.{kind_of_word};

use ladder_text::DrawFaultKind;
use name_faults::BindKind;
use network::GraphFaultKind;
use plant_grammar::{GrammarFault, GrammarFaultKind};
use std::alloc::{AllocError, AllocFailed};
use std::fmt;
use thiserror::Error;

/// The kinds of faults of a plant's text.
#[derive(Clone, Copy, Debug, PartialEq, Eq)]
pub enum PlantFaultKind {
    /// A word that the grammar doesn't have there, or a number out of its limits.
    Syntax,
    /// A program's drawing is refused.
    Drawing,
    /// A program's networks are refused.
    Graph,
    /// The names of a program's drawing can't be bound to its variables.
    Bind,
    /// A name that is declared already, in whatever case.
    NameTwice,
    /// A name that isn't declared where it is sought.
    UnknownName,
    /// A source of another kind than its input, or a block type outside VAR or behind RETAIN.
    WrongKind,
    /// An input that is bound already.
    InputBoundTwice,
    /// One more than there may be.
    TooMany,
    /// There was no memory left.
    Memory,
}

/// The fault of a program's body, by the layer that refused it.
#[derive(Clone, Copy, Debug, PartialEq, Eq, Error)]
pub enum BodyFault {
    #[error("{0:?}")]
    Drawing(DrawFaultKind),
    #[error("{0:?}")]
    Graph(GraphFaultKind),
    #[error("{0:?}")]
    Bind(BindKind),
}

/// Why a text is no plant: the first fault met from top to bottom, with its line. Memory has line 0.
#[derive(Clone, Copy, Debug, PartialEq, Eq)]
pub struct PlantFault {
    pub kind: PlantFaultKind,
    /// The line of the word, or the last line at the end of the text.
    pub line: u64,
    /// What was wrong with a body, for the kinds Drawing, Graph and Bind.
    pub inner: Option<BodyFault>,
}

impl PlantFault {
    /// A fault of a word on a line.
    pub fn at(kind: PlantFaultKind, line: u64) -> PlantFault
        ensures { result ≡ record { kind = kind; line = line; inner = None } }
    {
        PlantFault {
            kind,
            line,
            inner: None,
        }
    }
}

impl From<AllocError> for PlantFault {
    ghost use Rattle.plant.specs.declared.plant_fault.PlantFaultKind.TheVariants.{Memory};
    ghost use Rattle.plant.specs.Faults.{IsPlantFault};

    ghost from_gives = { λ _ fault. (fault.kind ≡ Memory) × IsPlantFault fault };

    fn from(_fault: AllocError) -> PlantFault {
        PlantFault::at(PlantFaultKind::Memory, 0)
    }
}

impl<T: Drop> From<AllocFailed<T>> for PlantFault {
    ghost use Rattle.plant.specs.declared.plant_fault.PlantFaultKind.TheVariants.{Memory};
    ghost use Rattle.plant.specs.Faults.{IsPlantFault};

    ghost from_gives = { λ _ fault. (fault.kind ≡ Memory) × IsPlantFault fault };

    fn from(_fault: AllocFailed<T>) -> PlantFault {
        PlantFault::at(PlantFaultKind::Memory, 0)
    }
}

/// The kind of a word's fault, as one of a plant's text.
fn kind_of_word(kind: GrammarFaultKind) -> PlantFaultKind
    ensures { result ≡ kind_of_word kind }
{
    match kind {
        GrammarFaultKind::Syntax => PlantFaultKind::Syntax,
        GrammarFaultKind::NameTwice => PlantFaultKind::NameTwice,
        GrammarFaultKind::UnknownName => PlantFaultKind::UnknownName,
        GrammarFaultKind::WrongKind => PlantFaultKind::WrongKind,
        GrammarFaultKind::InputBoundTwice => PlantFaultKind::InputBoundTwice,
        GrammarFaultKind::TooMany => PlantFaultKind::TooMany,
        GrammarFaultKind::Memory => PlantFaultKind::Memory,
    }
}

impl From<GrammarFault> for PlantFault {
    ghost use Rattle.plant.specs.Faults.{fault_of_word};

    ghost from_gives = { λ word fault. fault ≡ fault_of_word word };

    fn from(fault: GrammarFault) -> PlantFault {
        PlantFault::at(kind_of_word(fault.kind), fault.line)
    }
}

impl fmt::Display for PlantFault {
    fn fmt<W: fmt::Write>(&self, f: &mut fmt::Formatter<W>) -> fmt::Result {
        match self.inner {
            None => write!(f, "{}: {:?}", self.line, self.kind),
            Some(inner) => write!(f, "{}: {:?} {inner}", self.line, self.kind),
        }
    }
}
