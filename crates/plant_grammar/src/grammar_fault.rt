ghost use Rattle.std.specs.Prelude.{◌≡◌};

use std::alloc::{AllocError, AllocFailed};

/// The kinds of faults of the words of a plant's text.
#[derive(Clone, Copy, Debug, PartialEq, Eq)]
pub enum GrammarFaultKind {
    /// A word that the grammar doesn't have there, or a number out of its limits.
    Syntax,
    /// A name that is declared already, in whatever case.
    NameTwice,
    /// A name that isn't declared where it is sought.
    UnknownName,
    /// A source of another kind than its input, or a block type outside VAR or behind RETAIN.
    WrongKind,
    /// An input that is bound already.
    InputBoundTwice,
    /// One more than there may be.
    TooMany,
    /// There was no memory left.
    Memory,
}

/// Why the words of a text are no plant's: the first fault met from top to bottom, with its line. Memory has line 0.
#[derive(Clone, Copy, Debug, PartialEq, Eq)]
pub struct GrammarFault {
    pub kind: GrammarFaultKind,
    /// The line of the word, or the last line at the end of the text.
    pub line: u64,
}

impl GrammarFault {
    /// A fault of a word on a line.
    pub fn at(kind: GrammarFaultKind, line: u64) -> GrammarFault
        ensures { result ≡ record { kind = kind; line = line } }
    {
        GrammarFault { kind, line }
    }
}

impl From<AllocError> for GrammarFault {
    ghost use Rattle.plant_grammar.specs.declared.grammar_fault.GrammarFaultKind.TheVariants.{Memory};
    ghost use Rattle.plant_grammar.specs.WordFaults.{IsGrammarFault};

    ghost from_gives = { λ _ fault. (fault.kind ≡ Memory) × IsGrammarFault fault };

    fn from(_fault: AllocError) -> GrammarFault {
        GrammarFault::at(GrammarFaultKind::Memory, 0)
    }
}

impl<T: Drop> From<AllocFailed<T>> for GrammarFault {
    ghost use Rattle.plant_grammar.specs.declared.grammar_fault.GrammarFaultKind.TheVariants.{Memory};
    ghost use Rattle.plant_grammar.specs.WordFaults.{IsGrammarFault};

    ghost from_gives = { λ _ fault. (fault.kind ≡ Memory) × IsGrammarFault fault };

    fn from(_fault: AllocFailed<T>) -> GrammarFault {
        GrammarFault::at(GrammarFaultKind::Memory, 0)
    }
}
