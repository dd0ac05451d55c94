//! Why a reading ends, before the lines have numbers.

ghost use Rattle.std.specs.Prelude.{◌≡◌, ◌≢◌};
ghost use Rattle.drawings.specs.Lines.{line_of_row};
ghost use Rattle.ladder_text.specs.declared.draw_fault.DrawFaultKind.TheVariants.{Memory};

use crate::draw_fault::{DrawFault, DrawFaultKind};
use drawings::Place;
use std::alloc::AllocError;

/// The fault that is found first, and its place.
#[derive(Clone, Copy)]
pub struct Refusal {
    pub kind: DrawFaultKind,
    pub place: Place,
}

impl From<AllocError> for Refusal {
    ghost from_gives = { λ _ e. e.kind ≡ Memory };

    fn from(_: AllocError) -> Refusal {
        Refusal {
            kind: DrawFaultKind::Memory,
            place: Place { row: 0, column: 0 },
        }
    }
}

impl Refusal {
    /// The fault, where the first row has a number.
    pub fn on_lines(self, first_line: u64) -> DrawFault
        ensures kind { result.kind ≡ self.kind }
        ensures memory { self.kind ≡ Memory → (result.line ≡ 0) × (result.column ≡ 0) }
        ensures line { self.kind ≢ Memory → result.line ≡ line_of_row first_line self.place.row }
        ensures column { self.kind ≢ Memory → result.column ≡ self.place.column }
    {
        if self.kind == DrawFaultKind::Memory {
            return DrawFault {
                kind: self.kind,
                line: 0,
                column: 0,
            };
        }
        DrawFault {
            kind: self.kind,
            line: first_line.saturating_add(self.place.row.saturating_sub(1) as u64),
            column: self.place.column,
        }
    }
}
