//! The standard files, where they are closed when the program begins.

use std::fs::{self, OpenOptions};
use std::rt::Files;

/// A file that keeps nothing and gives nothing.
const NOTHING: &str = "/dev/null";

/// Files in the place of standard ones that are closed.
#[derive(Drop)]
pub struct StandardFiles<F: Drop> {
    _input: Option<F>,
    _output: Option<F>,
    _errors: Option<F>,
}

/// A file in the place of a standard one, if that is closed: it has the lowest number that is free.
fn in_place<R: Files>(rt: &R, path: &str, options: &OpenOptions) -> Option<R::File> {
    match fs::metadata(rt, path) {
        Ok(_) => None,
        Err(_) => options.open(rt, NOTHING).ok(),
    }
}

/// Takes the numbers of standard files that are closed: else a file that is opened later has one of them, and what goes to
/// standard output is written into it. From standard input nothing can be read then, to the others nothing be written.
pub fn hold_standard<R: Files>(rt: &R) -> StandardFiles<R::File> {
    let mut written = OpenOptions::new();
    written.write(true);
    let mut read = OpenOptions::new();
    read.read(true);
    StandardFiles {
        _input: in_place(rt, "/dev/fd/0", &written),
        _output: in_place(rt, "/dev/fd/1", &read),
        _errors: in_place(rt, "/dev/fd/2", &read),
    }
}
