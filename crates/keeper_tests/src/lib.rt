//! Tests of `keepers`, over a disk in memory.
#![tactic(auto)]

#[cfg(test)]
mod checks;
#[cfg(test)]
mod disk;
#[cfg(test)]
mod disk_files;
#[cfg(test)]
mod failing_disks;
#[cfg(test)]
mod file_contents;
#[cfg(test)]
mod retained;
#[cfg(test)]
mod retained_files;
