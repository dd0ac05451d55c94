//! The search for why a system is never bad, or for a run on which it is: property-directed reachability. Nothing is believed
//! of it: a certificate is checked, and a run done, before it is handed out. In this order: cubes, what signals depend on,
//! depths, solvers over them, queries, obligations, the search; steps, what is needed of them, certificates; what is found.
#![tactic(auto)]

mod certifying;
mod cones;
mod cubes;
mod depth_solver;
mod depths;
mod finding;
mod needed;
mod obligations;
mod queries;
mod search;
mod showing;

pub use certifying::certify;
pub use finding::{BadRun, Found, find};
