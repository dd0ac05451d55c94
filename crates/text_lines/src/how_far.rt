/// How far a work is.
#[derive(Clone, Copy, Debug, PartialEq, Eq)]
pub enum HowFar {
    /// Of a search: states that were met, those of them that are not gone through yet, and scans that were made.
    Searched {
        states: usize,
        to_go: usize,
        scans: usize,
    },
    /// Of a text: lines that went out.
    Written {
        lines: usize,
    },
    /// Of a run: commands that are done with, obeyed or not.
    Obeyed {
        commands: u64,
    },
}

/// Who is told how far a work is. The work is the same, whatever comes of it.
pub trait Progress {
    /// The work is so far.
    fn tell(&mut self, how_far: HowFar);

    /// The work is done, or given up.
    fn end(&mut self);
}
