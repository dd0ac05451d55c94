/// What a resource tells of itself: the incarnation in which it is.
#[derive(Clone, Copy, Debug)]
pub(crate) struct Hello {
    pub resource: usize,
    pub incarnation: u32,
}
