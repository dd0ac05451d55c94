//! Tests of the libraries from a drawing to its scan, by their public calls alone: what the program doesn't show. What it shows, a case of `tests/eval` shows.
#![tactic(auto)]

#[cfg(test)]
mod checks;
#[cfg(test)]
mod declarations;
#[cfg(test)]
mod graphs;
#[cfg(test)]
mod powers;
#[cfg(test)]
mod sames;
#[cfg(test)]
mod states;
