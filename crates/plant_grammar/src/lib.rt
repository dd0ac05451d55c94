//! The words of a plant's text as a tree: program types whose bodies aren't drawn yet, and resources whose sources aren't resolved yet.
#![tactic(auto)]

mod grammar;
mod grammar_fault;
mod laws;
mod names;

pub use grammar::name::Name;
pub use grammar::program_text::ProgramText;
pub use grammar::read_tree::read_tree;
pub use grammar::reader::Reader;
pub use grammar::retained_places::retained_places;
pub use grammar::tree::{
    Bind, Item, NameList, Order, Program, Resource, Section, SourceLines, SourceName, TaskLine,
    TypeName, Use, VarBlock,
};
pub use grammar_fault::{GrammarFault, GrammarFaultKind};
pub use laws::{
    programs_are_the_first, words_are_in_place, words_are_judged, words_behind_are_in_place,
    words_have_one_tree,
};
pub use names::is_named;
