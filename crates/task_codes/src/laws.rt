ghost use Rattle.task_codes.specs.Plan.{OnePlan};

/// There is one plan.
pub fn one_plan()
    ensures { OnePlan }
{}
