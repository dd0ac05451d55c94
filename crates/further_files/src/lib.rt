//! Notes of a node that go on in further files: where the next one would make a file of the journal too long, a new file is begun
//! with a line that tells which file it goes on from.
#![tactic(auto)]

mod file_row;
mod journal_files;
mod last_file;
mod row_notes;
mod told_incarnation;

pub use file_row::{FileRow, RowFault, further_file, open_single};
pub use journal_files::JournalFiles;
pub use last_file::LastFile;
pub use row_notes::RowNotes;
