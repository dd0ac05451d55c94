ghost use Rattle.plant.specs.Ladders.{OneLadder};

use power_flow::one_ladder;

/// A program has one ladder at most.
pub fn program_has_one_ladder()
    ensures { OneLadder }
{
    one_ladder();
}
