//! Tests of `node`, by its public calls alone.
#![tactic(auto)]

#[cfg(test)]
mod answers;
#[cfg(test)]
mod checks;
#[cfg(test)]
mod drawn;
#[cfg(test)]
mod free_lists;
#[cfg(test)]
mod gates;
#[cfg(test)]
mod journals;
#[cfg(test)]
mod memory;
#[cfg(test)]
mod paced_lists;
#[cfg(test)]
mod retained;
#[cfg(test)]
mod runs;
#[cfg(test)]
mod senders;
#[cfg(test)]
mod test_keepers;
#[cfg(test)]
mod threads;
