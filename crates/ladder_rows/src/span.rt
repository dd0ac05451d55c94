/// A part of a row, from its first column up to, and without, its end.
#[derive(Clone, Copy)]
pub struct Span {
    pub first: usize,
    pub end: usize,
}
