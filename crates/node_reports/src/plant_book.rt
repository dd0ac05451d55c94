use crate::journals::Journals;
use book::Book;

/// A book, and the journals of a plant's resources that made its entries.
#[derive(Drop)]
pub struct PlantBook {
    pub book: Book,
    pub journals: Journals,
}
