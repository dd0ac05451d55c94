//! What holds of journals and of the nodes that wrote them.

ghost use Rattle.live_node.specs.NodeAnswers.{a_keeper_gives};
ghost use Rattle.audit.specs.OneReason.{OneReason};
ghost use Rattle.audit.specs.OneTelling.{AnswersAreTold, OneTelling};

use evaluation::{one_evaluation, taken_alike};
use keepers::Keeper;

/// Why a line can't be shown is one thing: no two reasons are told of the same line, but that two evaluations don't fit.
pub fn one_reason()
    ensures { OneReason }
{}

/// What a node does at a line that it answers and notes is what a line of its journal tells; at one that it doesn't note it
/// does nothing.
pub fn answers_are_told<K: Keeper>()
    ensures { AnswersAreTold (a_keeper_gives K.last K.raise_gives) }
{}

/// Behind the same lines a node and an audit stand alike: they hold the same, make the same next, and number the next line alike. That is not said of an evaluation that was noted and never done.
pub fn one_telling()
    ensures { OneTelling }
{
    one_evaluation();
    taken_alike();
}
