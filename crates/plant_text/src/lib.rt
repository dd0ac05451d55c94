//! The text of a plant, as words with the lines that they begin on.
#![tactic(auto)]

mod bodies;
mod front_word;
mod gaps;
mod laws;
mod lexer;
mod token;
mod word;
mod word_kinds;
mod word_list;

pub use laws::one_words;
pub use lexer::last_line;
pub use token::{Keyword, Punctuation, Token};
pub use word::Word;
pub use word_list::{Words, read_words};
