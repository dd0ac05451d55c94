ghost use Rattle.std.specs.Prelude.{◌≡◌};

use crate::program_type::ProgramType;
use plant_grammar::Resource;
use std::marker::Model;

/// All that is written in a plant's text, without a fault but in its sources, which aren't resolved yet.
#[derive(Drop)]
pub struct Reading {
    types: Vec<ProgramType>,
    resources: Vec<Resource>,
}

impl Model for Reading {
    ghost use Rattle.plant.specs.Steps.Reading.{ReadingValue};

    ghost Value = { ReadingValue };

    ghost view = { λ r. record { types = r.types.items; resources = r.resources.items } };
}

impl Reading {
    /// Program types and resources.
    pub fn new(types: Vec<ProgramType>, resources: Vec<Resource>) -> Reading
        ensures { result ≡ record { types = types.items; resources = resources.items } }
    {
        Reading { types, resources }
    }

    /// The program types in order of declaration.
    pub fn types(&self) -> &[ProgramType]
        ensures { result.now ≡ self.now.types }
    {
        self.types.as_slice()
    }

    /// The program types alone.
    pub fn into_types(self) -> Vec<ProgramType>
        ensures { result.items ≡ self.types }
    {
        self.types
    }

    /// The resources in order of declaration.
    pub fn resources(&self) -> &[Resource]
        ensures { result.now ≡ self.now.resources }
    {
        self.resources.as_slice()
    }
}
