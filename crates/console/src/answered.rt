ghost use Rattle.console.specs.Endings.{EndsWith};

use traces::TraceTexts;

/// The status of a command, and the texts for the files of its trace.
#[derive(Drop)]
pub struct Answered {
    pub status: u8,
    pub texts: TraceTexts,
}

impl Answered {
    /// A status, and no texts.
    pub fn with(status: u8) -> Answered
        ensures { EndsWith status result }
    {
        Answered {
            status,
            texts: TraceTexts::none(),
        }
    }
}
