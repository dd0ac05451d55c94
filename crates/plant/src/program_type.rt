ghost use Rattle.std.specs.Prelude.{◌≡◌};
ghost use Rattle.std.specs.List.{find};
ghost use Rattle.std.specs.Option.{option_map};
ghost use Rattle.plant_grammar.specs.Names.{is_named};
ghost use Rattle.plant.specs.ProgramTypes.{TypeValue};
ghost use Rattle.plant.specs.Ladders.{IsLadderOf};

use plant_grammar::{Name, Program, is_named};
use power_flow::Ladder;
use std::marker::Model;
use std::sync::Arc;

/// A program type of a plant as it is written, and its ladder.
#[derive(Drop)]
pub struct ProgramType {
    program: Program,
    ladder: Arc<Ladder>,
}

impl Model for ProgramType {
    ghost use Rattle.plant.specs.ProgramTypes.{TypeValue};
    ghost use Rattle.plant.specs.Ladders.{IsLadderOf};

    ghost Value = { TypeValue };

    ghost view = { λ t. record { program = t.program; ladder = t.ladder.value } };

    ghost invariant = { λ t. IsLadderOf t.program t.ladder.value };
}

impl ProgramType {
    /// A program type and its ladder.
    pub(crate) fn new(program: Program, ladder: Arc<Ladder>) -> ProgramType
        requires { IsLadderOf program ladder.value }
        ensures { result ≡ record { program = program; ladder = ladder.value } }
    {
        ProgramType { program, ladder }
    }

    /// The type as it is written.
    pub fn program(&self) -> &Program
        ensures { result.now ≡ self.now.program }
    {
        &self.program
    }

    /// Its ladder.
    pub fn ladder(&self) -> &Arc<Ladder>
        ensures ladder { result.now.value ≡ self.now.ladder }
        ensures drawn { IsLadderOf self.now.program self.now.ladder }
    {
        &self.ladder
    }
}

/// The first program type of the name.
pub(crate) fn type_named<'a>(types: &'a [ProgramType], name: &Name) -> Option<&'a ProgramType>
    ensures { option_map (λ t. t.now) result ≡ find (λ t. is_named name.now t.program.name) types.now }
{
    types
        .iter()
        .find(|found| name.is_same(&found.program().name))
}

/// The program type that is named by these characters, the first one, of these.
pub(crate) fn take_named(types: Vec<ProgramType>, name: &str) -> Option<ProgramType>
    ensures { result ≡ find (λ t. is_named name.now t.program.name) types.items }
{
    types
        .into_iter()
        .find(|found| is_named(name, found.program().name.as_str()))
}
