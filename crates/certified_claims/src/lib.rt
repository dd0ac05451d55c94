//! Claims of a ladder that are looked at by induction: a certificate is searched, and checked before anything is told, or
//! a run, which is done before it is told. In this order: verdicts, how large a certificate is, runs, claims, whether a
//! run meets what is given, their text, and what `plc verify --by induction` writes.
#![tactic(auto)]

mod bit_names;
mod certificate_lines;
mod certificate_size;
mod claim;
mod claims;
mod meeting;
mod replay;
mod verdict;
mod verdict_lines;
mod verify_command;

pub use claim::certify_claim;
pub use claims::certify_claims;
pub use meeting::meeting_of;
pub use verdict::{CertificateSize, Certified, CertifiedVerdict, Meeting, Scope};
pub use verify_command::{CertifiedAnswer, certify_text};
