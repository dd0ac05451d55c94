ghost use Rattle.evaluation.specs.Laws.{OneMeaning, OneEvaluation};

use power_flow::one_scan;

/// Evaluations of the same code with the same inputs, takes and elapsed time, from states with the same values, blocks and memories, give the same outputs and leave states with the same values, blocks and memories.
pub fn one_meaning()
    ensures { OneMeaning }
{
    one_scan();
}

/// Two evaluations of which the same was asked are equal.
pub fn one_evaluation()
    ensures { OneEvaluation }
{
    one_meaning();
}
