ghost use Rattle.std.specs.Prelude.{◌≡◌, ◌↔◌, IsTrue};
ghost use Rattle.evaluation.specs.Meaning.{IsMeant, IsWhole};
ghost use Rattle.node_reports.specs.Steps.Comparing.{AreAskedAlike};

use evaluation::{Evaluation, Frame, are_same_takes, one_evaluation};
use lists::are_same_numbers;

/// Whether the same was asked of both, of the same state before.
fn are_asked_alike(evaluation: &Evaluation, other: &Evaluation) -> bool
    ensures { IsTrue result ↔ AreAskedAlike evaluation.now other.now }
{
    evaluation.ticket() == other.ticket()
        && evaluation.name().same(&other.name())
        && are_same_numbers(evaluation.heard(), other.heard())
        && evaluation.dt() == other.dt()
        && evaluation.inputs().same(other.inputs())
        && are_same_takes(evaluation.takes(), other.takes())
        && evaluation.before().same(other.before())
}

/// Whether two evaluations are equal that are by one code if they are of one task. What was asked and the state before
/// are compared; all else follows from these.
pub fn are_equal(frame: &Frame, other: &Frame) -> bool
    requires one_code { frame.now.name.task ≡ other.now.name.task → frame.now.code ≡ other.now.code }
    ensures { IsTrue result ↔ (frame.now ≡ other.now) }
{
    one_evaluation();
    // The getters hand out that each is what its own code means.
    let _outputs = frame.outputs();
    let _others = other.outputs();
    are_asked_alike(frame.evaluation(), other.evaluation())
}
