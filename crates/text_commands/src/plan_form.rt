/// What is written for each entry of a plan.
#[derive(Clone, Copy, Debug, PartialEq, Eq)]
pub enum PlanForm {
    /// A line with its moment.
    Moments,
    /// The lines of a schedule: an evaluation, and its delivery to each resource that takes from it.
    Schedule,
}
