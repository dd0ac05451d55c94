//! Tests of `world`, by their public calls alone. What the program shows of them, a case of `tests/sim` shows.
#![tactic(auto)]

#[cfg(test)]
mod acts;
#[cfg(test)]
mod books;
#[cfg(test)]
mod checks;
#[cfg(test)]
mod halting;
#[cfg(test)]
mod runs;
#[cfg(test)]
mod schedules;
#[cfg(test)]
mod worlds;
