use declared_names::Declared;
use words::Text;

/// A name as it stands in a drawing: the place of its symbol or box, or its own first character, and what it is by this use.
#[derive(Drop)]
pub struct NameUse {
    pub row: usize,
    pub column: usize,
    pub name: Text,
    pub declared: Declared,
}
