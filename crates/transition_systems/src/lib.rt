//! Systems of state bits that step under rows of inputs, and certificates that none is ever bad, or not under so many rows:
//! whoever made one isn't believed, since it is checked. In this order: systems, whether one fits together, runs,
//! certificates, their check, depths.
#![tactic(auto)]

mod certificate;
mod certificate_fault;
mod checking;
mod depths;
mod first_state;
mod formula;
mod obligations;
mod over_signals;
mod runs;
mod shape;
mod system;

pub use certificate::Certificate;
pub use certificate_fault::CertificateFault;
pub use checking::check_certificate;
pub use depths::check_depths;
pub use formula::formula_of;
pub use over_signals::clause_over;
pub use runs::reaches_bad;
pub use shape::is_whole;
pub use system::TransitionSystem;
