use crate::difference::Difference;
use traces::TraceTexts;

/// What came of the scans of a ladder: the first difference from what was expected, and the texts of their trace.
#[derive(Debug, Drop)]
pub struct Traced {
    pub difference: Option<Difference>,
    pub texts: TraceTexts,
}
