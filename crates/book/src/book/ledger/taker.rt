use task_codes::TaskRef;

/// Where the newest entry of a resource that takes from a producer stands in a book, if there is one.
#[derive(Clone, Copy)]
pub struct Taker {
    pub resource: usize,
    pub producer: TaskRef,
    pub index: Option<usize>,
}
