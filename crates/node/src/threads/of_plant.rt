use std::marker::Brand;

/// Of which plant the evaluations of a run are. Each run picks it.
pub(crate) trait OfPlant {
    ghost use Rattle.plant.specs.PlantValue.{PlantValue};

    ghost plant: { PlantValue };
}

impl OfPlant for Brand {
    ghost use Rattle.std.specs.Prelude.{[]};

    ghost plant = { record { resources = [] } };
}
