//! What the words of the command line ask for, and what the program tells for what it is asked but runs, nodes and
//! audits: answers, refusals, and statuses.
#![tactic(auto)]

mod answered;
mod answers;
mod command_fault;
mod command_words;
mod commands;
mod explain_answer;
mod faults;
mod field_words;
mod files;
mod given;
mod help;
mod node_prepared;
mod page_answer;
mod piped;
mod prepared;
mod refusals;
mod remarks;
mod request;
mod schedules;
mod shell_word;
mod shown;
mod status;
mod verify_answer;
mod version;
mod warned;

pub use answered::Answered;
pub use answers::{answer_text, obey, wanted_for};
pub use command_fault::CommandFault;
pub use command_words::read_words;
pub use explain_answer::{answer_kind, answer_kinds};
pub use faults::{print_failure, print_fault, print_word_refusal};
pub use field_words::read_field_words;
pub use files::{file_bytes, file_plant};
pub use given::{given_words, print_given_fault, print_usage};
pub use node_prepared::{PreparedNode, prepare_node};
pub use page_answer::{answer_page, obey_page};
pub use prepared::{Prepared, prepare};
pub use refusals::{
    WordRefusal, write_difference_line, write_no_event, write_refusal, write_word_refusal,
};
pub use request::{
    AuditRequest, Color, JournalFull, NodeRequest, Pace, Request, Restarts, RunRequest, SimRequest,
    Strictness, TextRequest, TraceFiles, VerifyRequest, View, Way,
};
pub use schedules::{answer_schedule, obey_lines, obey_schedule};
pub use shown::Shown;
pub use status::FAILED;
pub use verify_answer::{Verified, answer_verify, obey_certify, obey_verify};
