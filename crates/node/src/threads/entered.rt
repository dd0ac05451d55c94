use evaluation::Frame;

/// An evaluation that was entered.
#[derive(Drop)]
pub(crate) struct Entered {
    /// A copy to send; none where there was no memory for it.
    pub frame: Option<Frame>,
}
