/// What has a name in a plant.
#[derive(Clone, Copy, PartialEq, Eq)]
pub enum Thing {
    ProgramType,
    Resource,
    Task,
    Instance,
    Input,
    Output,
    Local,
}

/// A name where it is declared or used.
#[derive(Clone, Copy)]
pub struct Mention<'a> {
    pub thing: Thing,
    pub name: &'a [u8],
    /// The program type, resource or instance to which the thing belongs; empty where there is none.
    pub owner: &'a [u8],
    /// The program type of an instance that is declared; the resource of the instance of which an output is used; else
    /// empty.
    pub origin: &'a [u8],
    pub line: u64,
    pub is_declaration: bool,
}
