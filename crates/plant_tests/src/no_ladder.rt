//! Worked drawings whose networks have a fault: contracts that hold of the definitions alone.

ghost use Rattle.plant_tests.specs.Figures.{unattached_box};
ghost use Rattle.plant_tests.specs.NoLadder.{HasNoLadder, name_twice, tall_box};

/// A drawing with two boxes of one name, one with a box that no line reaches, and one with a box of 201 rows have no ladder.
pub fn have_no_ladder()
    ensures name_twice { HasNoLadder name_twice }
    ensures unattached_box { HasNoLadder unattached_box }
    ensures tall_box { HasNoLadder tall_box }
{}
