ghost use Rattle.std.specs.Prelude.{◌≡◌};
ghost use Rattle.warnings.specs.Found.{warning_at};
ghost use Rattle.warnings.specs.Sentences.{sentence_of};

use drawings::Place;
use thiserror::Error;

/// The kinds of warnings.
#[derive(Clone, Copy, Debug, PartialEq, Eq)]
pub enum WarningKind {
    /// A coil whose variable another coil stores into later in each scan.
    DoubleCoil,
    /// A contact on a variable that nothing stores into, beside a name that is nearly the same.
    MistypedContact,
    /// A coil or an output pin on a variable of a program that nothing reads, and that isn't an output.
    NeverRead,
    /// A duration at PT of a timer that is no multiple of the time between scans.
    PresetBetweenScans,
}

impl WarningKind {
    /// What is most likely not meant, and what to write instead.
    pub fn sentence(self) -> &'static str
        ensures { result.now ≡ sentence_of self }
    {
        match self {
            WarningKind::DoubleCoil =>
                "Another coil stores into this variable later in each scan, so that what this one stores doesn't last. Give one rung the coil, with both conditions in parallel, or use (S) and (R).",
            WarningKind::MistypedContact =>
                "Nothing stores into this variable, and another name is nearly the same. Where that one is meant, write it alike; a variable of its own has a name that differs by more than a letter.",
            WarningKind::NeverRead =>
                "Nothing reads this variable, and it is no output. Read it, declare it as VAR_OUTPUT, or leave it out.",
            WarningKind::PresetBetweenScans =>
                "PT isn't a multiple of --dt, so that this timer is done later, at the next scan. Choose a --dt that divides PT.",
        }
    }
}

/// What is lawful, and most likely not meant, and where.
#[derive(Clone, Copy, Debug, PartialEq, Eq, Error)]
#[error("{line}:{column}: {kind:?}")]
pub struct Warning {
    pub kind: WarningKind,
    /// The number of the line, counted on from that of the drawing's first.
    pub line: u64,
    /// The column, from 1 on.
    pub column: usize,
}

impl Warning {
    /// A warning at a place of a drawing that begins with this line.
    pub(crate) fn at(kind: WarningKind, first_line: u64, place: Place) -> Warning
        ensures { result ≡ warning_at kind first_line place }
    {
        Warning {
            kind,
            line: first_line.saturating_add(place.row.saturating_sub(1) as u64),
            column: place.column,
        }
    }
}
