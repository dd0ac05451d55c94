use thiserror::Error;

/// Why an evaluation is not entered into a book: the first of these that holds. The book is unchanged.
#[derive(Clone, Copy, Debug, PartialEq, Eq, Error)]
pub enum Misfit {
    /// There is no such resource, its incarnation is below the resource's present one in the book (the greatest of its first one, its entries' and what entries have heard of it),
    /// or its number isn't one more than that of the task's last entry in the incarnation (1 if there is none).
    #[error("WrongNumber")]
    WrongNumber,
    /// No entry has the name that a take gives.
    #[error("UnknownTake")]
    UnknownTake,
    /// A take has another image than the entry that it names.
    #[error("Torn")]
    Torn,
    /// A take from another resource is below an earlier take of this resource and incarnation from that producer.
    #[error("Back")]
    Back,
    /// A take from the own resource isn't that task's last entry in this incarnation, or is of nothing where there is one.
    #[error("NotOwnLatest")]
    NotOwnLatest,
    /// There is no memory.
    #[error("Memory")]
    Memory,
    /// An entry that is taken from another resource isn't addressed to the taker's incarnation. It is looked for after NotOwnLatest.
    #[error("NotAddressed")]
    NotAddressed,
    /// What was heard isn't one number for each resource, or one of them is below that resource's first incarnation,
    /// or below what an earlier entry of this resource and incarnation has heard. It is looked for last.
    #[error("Misheard")]
    Misheard,
}
