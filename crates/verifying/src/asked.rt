use crate::setup::Setting;

/// What a question is about, by the places of variables.
#[derive(Drop)]
pub(crate) struct Asked {
    pub(crate) claims: Vec<usize>,
    pub(crate) given: Vec<usize>,
    pub(crate) free: Vec<usize>,
    pub(crate) held: Vec<Setting>,
}
