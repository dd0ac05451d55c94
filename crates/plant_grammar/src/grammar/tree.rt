//! The parts of a plant's text, as they are written.

use crate::grammar::name::Name;
use declared_names::Kind;
use std_blocks::BlockType;
use words::{Address, Text};

/// Which variables a block declares.
#[derive(Clone, Copy)]
pub enum Section {
    /// VAR_INPUT.
    Input,
    /// VAR_OUTPUT.
    Output,
    /// VAR.
    Local,
    /// VAR RETAIN: locals that outlive a restart.
    Retained,
}

/// What stands behind the colon of a declaration.
#[derive(Clone, Copy)]
pub enum TypeName {
    Elementary(Kind),
    Block(BlockType),
}

/// Names of one type.
#[derive(Drop)]
pub struct NameList {
    pub names: Vec<Name>,
    pub type_name: TypeName,
}

/// A block of declarations, from VAR_INPUT, VAR_OUTPUT, VAR or VAR RETAIN to END_VAR.
#[derive(Drop)]
pub struct VarBlock {
    pub section: Section,
    pub lists: Vec<NameList>,
}

/// A program type: its name, its variables and the lines of its drawing.
#[derive(Drop)]
pub struct Program {
    pub name: Name,
    pub blocks: Vec<VarBlock>,
    pub body: Text,
}

/// Which setting of a task stands first.
#[derive(Clone, Copy)]
pub enum Order {
    IntervalFirst,
    PriorityFirst,
}

/// A task of a resource.
#[derive(Drop)]
pub struct TaskLine {
    pub name: Name,
    pub order: Order,
    /// In ms.
    pub interval: u32,
    pub priority: u16,
}

/// Where a bound input comes from.
#[derive(Drop)]
pub enum SourceName {
    Field(Address),
    Output {
        resource: Name,
        instance: Name,
        output: Name,
    },
}

/// An input and its source.
#[derive(Drop)]
pub struct Bind {
    pub input: Name,
    pub source: SourceName,
}

/// The lines that the three names of a source stand on. Of an address the first line is its own; the others tell nothing.
#[derive(Clone, Copy)]
pub struct SourceLines {
    pub resource: u64,
    pub instance: u64,
    pub output: u64,
}

/// An instance of a program. There may be no parentheses.
#[derive(Drop)]
pub struct Use {
    pub instance: Name,
    pub task: Name,
    pub program: Name,
    pub binds: Option<Vec<Bind>>,
    /// The lines of the source of each bind, in order.
    pub lines: Vec<SourceLines>,
}

/// A line of a resource.
#[derive(Drop)]
pub enum Item {
    Task(TaskLine),
    Use(Use),
}

/// A resource.
#[derive(Drop)]
pub struct Resource {
    pub name: Name,
    pub node: Name,
    pub items: Vec<Item>,
}
