/// Where an entry stands in a book, with its incarnation and number.
#[derive(Clone, Copy)]
pub struct Place {
    pub incarnation: u32,
    pub number: u32,
    pub index: usize,
}
