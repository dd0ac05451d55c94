use std_blocks::BlockType;
use words::{Address, Text};

/// The words that are fixed, in either case.
#[derive(Clone, Copy, Debug, PartialEq, Eq)]
pub enum Keyword {
    Program,
    EndProgram,
    Var,
    VarInput,
    VarOutput,
    Retain,
    EndVar,
    Configuration,
    EndConfiguration,
    Resource,
    EndResource,
    On,
    Task,
    With,
    Interval,
    Priority,
    Bool,
    Int,
    Time,
}

/// The marks that are words of their own.
#[derive(Clone, Copy, Debug, PartialEq, Eq)]
pub enum Punctuation {
    Open,
    Close,
    Colon,
    Semicolon,
    Comma,
    Dot,
    Assign,
}

/// What a word of a plant's text is.
#[derive(Debug, Drop)]
pub enum Token {
    Keyword(Keyword),
    /// The type of a standard block.
    Block(BlockType),
    Punctuation(Punctuation),
    Name(Text),
    /// From 0 to 65,535.
    Number(u16),
    /// From 0 to 2,147,483,647 ms.
    Duration(u32),
    Address(Address),
    /// The lines of a program's body.
    Body(Text),
    /// What is no word.
    Unknown,
}
