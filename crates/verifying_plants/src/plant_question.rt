/// What is asked of a plant: whether outputs are ever on together.
#[derive(Clone, Copy)]
pub struct PlantQuestion<'a> {
    /// The claims: names of BOOL outputs such as `R1.A.INSIDE`, parted by commas, of which never all are on.
    pub claims: &'a [&'a str],
    /// The names of outputs that each evaluation of their tasks leaves TRUE.
    pub given: &'a [&'a str],
    /// Words ADDRESS=VALUE or ADDRESS=LEAST..GREATEST, which tell what field addresses hold.
    pub words: &'a [&'a str],
    /// The time from one evaluation of each task to the next in ms; the task's INTERVAL where there is none.
    pub dt: Option<u32>,
    /// Whether resources restart.
    pub restarts: bool,
    /// How many states are looked at, at most.
    pub most_states: u32,
    /// Of how many images that wait between a task and a resource the order is kept.
    pub most_waiting: u32,
}
