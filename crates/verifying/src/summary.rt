ghost use Rattle.std.specs.Prelude.{◌↔◌, IsTrue, Any};
ghost use Rattle.verifying.specs.Summaries.{IsFailure, IsOpen, IsSummary};

use crate::verdict::Verdict;

/// What comes of all claims.
#[derive(Clone, Copy, Debug, PartialEq, Eq)]
pub enum Summary {
    /// Each holds.
    AllHold,
    /// One fails at least.
    OneFails,
    /// None fails, and one is undecided at least.
    OneUndecided,
}

impl Summary {
    ghost use Rattle.std.specs.Prelude.{◌≡◌};
    ghost use Rattle.verifying.specs.Summaries.{summary_of};

    /// What comes of all, where one fails or none does, and one is undecided or none is.
    pub fn of(one_fails: bool, one_undecided: bool) -> Self
        ensures { result ≡ summary_of one_fails one_undecided }
    {
        match (one_fails, one_undecided) {
            (true, _) => Summary::OneFails,
            (false, true) => Summary::OneUndecided,
            (false, false) => Summary::AllHold,
        }
    }
}

fn is_failure(verdict: &Verdict) -> bool
    ensures { IsTrue result ↔ IsFailure verdict.now }
{
    matches!(verdict, Verdict::Fails(_))
}

fn is_open(verdict: &Verdict) -> bool
    ensures { IsTrue result ↔ IsOpen verdict.now }
{
    matches!(verdict, Verdict::Undecided(_))
}

fn has_failure(verdicts: &[Verdict]) -> bool
    ensures { IsTrue result ↔ Any IsFailure verdicts.now }
{
    verdicts.iter().any(|verdict| is_failure(verdict))
}

fn has_open(verdicts: &[Verdict]) -> bool
    ensures { IsTrue result ↔ Any IsOpen verdicts.now }
{
    verdicts.iter().any(|verdict| is_open(verdict))
}

/// What comes of these verdicts together.
pub(crate) fn summary_of(verdicts: &[Verdict]) -> Summary
    ensures { IsSummary verdicts.now result }
{
    Summary::of(has_failure(verdicts), has_open(verdicts))
}
