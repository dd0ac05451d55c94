//! The words of a text as a tree: a function for each rule of the grammar, names and limits checked where they are read.

pub mod known_names;
pub mod name;
pub mod program_text;
pub mod read_instance;
pub mod read_program;
pub mod read_resource;
pub mod read_task;
pub mod read_tree;
pub mod reader;
pub mod retained_places;
pub mod tally;
pub mod tree;
pub mod variables;
