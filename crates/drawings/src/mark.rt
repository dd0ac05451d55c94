/// What stands at one place of a drawing.
#[derive(Clone, Copy, Debug, PartialEq, Eq)]
pub enum Mark {
    /// Nothing, or a character of a word.
    Blank,
    /// `|` or `+` of the left rail, or of the right one.
    Rail,
    /// `-`
    Wire,
    /// `+`, where lines meet.
    Join,
    /// `|`, a part of an upright line.
    Upright,
    /// One of the three places of a contact.
    ContactPart,
    /// One of the three places of a coil.
    CoilPart,
    /// A place on a side of a box, or inside it.
    BoxPart,
}
