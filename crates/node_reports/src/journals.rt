use crate::journal::Journal;
use std::marker::Model;

/// The journals of a plant's resources, in the order of the resources.
#[derive(Drop)]
pub struct Journals {
    listed: Vec<Journal>,
}

impl Model for Journals {
    ghost use Rattle.std.specs.Prelude.{List};
    ghost use Rattle.node_reports.specs.declared.journal.Journal.{Journal};

    ghost Value = { List Journal };

    ghost view = { λ j. j.listed.items };
}

ghost use Rattle.std.specs.Prelude.{◌≡◌};

impl Journals {
    /// These journals.
    pub(crate) fn of(listed: Vec<Journal>) -> Journals
        ensures { result ≡ listed.items }
    {
        Journals { listed }
    }

    /// The journals as a slice.
    pub fn as_slice(&self) -> &[Journal]
        ensures { result.now ≡ self.now }
    {
        self.listed.as_slice()
    }
}
