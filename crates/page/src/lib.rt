//! A page of HTML that shows a text: its head, the text escaped, its foot. What it looks like and what draws it stands in
//! `page/`; `run/page_text.py` makes of it the two constants.
#![tactic(auto)]

mod laws;
mod page;
mod page_text;

pub use laws::read_as_written;
pub use page::page_of;
pub use page_text::{FOOT, HEAD};
