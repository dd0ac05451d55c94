ghost use Rattle.std.specs.Prelude.{◌↔◌, IsTrue, Any};
ghost use Rattle.verifying_plants.specs.Summaries.{IsFailure, IsOpen, IsSummary};

use plant_claims::PlantVerdict;
use verifying::Summary;

fn is_failure(verdict: &PlantVerdict) -> bool
    ensures { IsTrue result ↔ IsFailure verdict.now }
{
    matches!(verdict, PlantVerdict::Fails(_))
}

fn is_open(verdict: &PlantVerdict) -> bool
    ensures { IsTrue result ↔ IsOpen verdict.now }
{
    matches!(verdict, PlantVerdict::Undecided(_))
}

fn has_failure(verdicts: &[PlantVerdict]) -> bool
    ensures { IsTrue result ↔ Any IsFailure verdicts.now }
{
    verdicts.iter().any(|verdict| is_failure(verdict))
}

fn has_open(verdicts: &[PlantVerdict]) -> bool
    ensures { IsTrue result ↔ Any IsOpen verdicts.now }
{
    verdicts.iter().any(|verdict| is_open(verdict))
}

/// What comes of these verdicts together.
pub(crate) fn summary_of(verdicts: &[PlantVerdict]) -> Summary
    ensures { IsSummary verdicts.now result }
{
    Summary::of(has_failure(verdicts), has_open(verdicts))
}
