use world::Simulated;

/// What stands when a schedule that tests is done: the world and how many events there were, and whether an expectation
/// was unmet.
#[derive(Drop)]
pub struct Tested {
    pub ended: Simulated,
    pub has_unmet: bool,
}
