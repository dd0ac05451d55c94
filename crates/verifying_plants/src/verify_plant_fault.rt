use text_commands::TextCommandFault;
use thiserror::Error;

/// The name with a number, counted from 0, of the claim with a number, counted from 0: no BOOL output of the plant has it.
#[derive(Clone, Copy, Debug, PartialEq, Eq, Error)]
#[error("the plant has no BOOL output of this name: a resource, a program instance in it and its output, as R.P.V")]
pub struct NameFault {
    pub number: usize,
    pub part: usize,
}

/// Why a word tells of no field address.
#[derive(Clone, Copy, Debug, PartialEq, Eq, Error)]
pub enum RangeFaultKind {
    /// It is neither ADDRESS=VALUE nor ADDRESS=LEAST..GREATEST.
    #[error("a word is %IXn=0, %IXn=1, %IWn=VALUE or %IWn=LEAST..GREATEST")]
    NoRange,
    /// A word before it tells of the same address.
    #[error("a word before it tells of this address")]
    Twice,
}

/// Why the word with a number, counted from 0, is refused.
#[derive(Clone, Copy, Debug, PartialEq, Eq, Error)]
#[error("{kind}")]
pub struct RangeFault {
    pub number: usize,
    pub kind: RangeFaultKind,
}

/// Why a question about a plant has no answer.
#[derive(Clone, Copy, Debug, PartialEq, Eq, Error)]
pub enum VerifyPlantFault {
    /// As in other commands: the text is refused, the output can't be written, or there is no memory left.
    #[error(transparent)]
    Command(TextCommandFault),
    /// A name of a claim is no BOOL output's.
    #[error(transparent)]
    Claim(NameFault),
    /// What is given is no BOOL output.
    #[error(transparent)]
    Given(NameFault),
    /// A word tells of no field address.
    #[error(transparent)]
    Range(RangeFault),
}
