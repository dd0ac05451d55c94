ghost use Rattle.std.specs.Prelude.{◌≡◌};
ghost use Rattle.plant_grammar.specs.Lawful.{variables};

use crate::grammar::tree::Program;
use declared_names::Declarations;
use std::marker::Model;

/// A program type as it is written, its body not drawn yet. Contracts see the program and the line that its body begins on.
#[derive(Drop)]
pub struct ProgramText {
    program: Program,
    /// Where the body begins.
    first_line: u64,
    declarations: Declarations,
}

impl Model for ProgramText {
    ghost use Rattle.std.specs.Prelude.{◌≡◌};
    ghost use Rattle.plant_grammar.specs.Lawful.{variables};
    ghost use Rattle.plant_grammar.specs.Grammar.{TextValue};

    ghost Value = { TextValue };

    ghost view = { λ t. record { program = t.program; first_line = t.first_line } };

    ghost invariant = { λ t. t.declarations ≡ variables t.program };
}

impl ProgramText {
    /// A program whose body begins on a line, with its variables.
    pub fn new(program: Program, first_line: u64, declarations: Declarations) -> ProgramText
        requires { declarations ≡ variables program }
        ensures { result ≡ record { program = program; first_line = first_line } }
    {
        ProgramText {
            program,
            first_line,
            declarations,
        }
    }

    /// The program as it is written.
    pub fn program(&self) -> &Program
        ensures { result.now ≡ self.now.program }
    {
        &self.program
    }

    /// Its variables.
    pub fn declarations(&self) -> &Declarations
        ensures { result.now ≡ variables self.now.program }
    {
        &self.declarations
    }

    /// The program, the line that its body begins on, and its variables.
    pub fn into_parts(self) -> (Program, u64, Declarations)
        ensures program { result.0 ≡ self.program }
        ensures line { result.1 ≡ self.first_line }
        ensures declared { result.2 ≡ variables self.program }
    {
        (self.program, self.first_line, self.declarations)
    }
}
