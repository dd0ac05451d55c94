//! Signs with which comments begin elsewhere.

use crate::rows::blanks_aside;
use std::alloc::{AllocError, Global};

/// The two signs with which a comment would begin, at the front of a text. `None`: it begins with none.
fn pair_at(text: &[u8]) -> Option<&'static str> {
    match text {
        [b'/', b'/', ..] => Some("//"),
        [b'/', b'*', ..] => Some("/*"),
        [b'(', b'*', ..] => Some("(*"),
        _ => None,
    }
}

/// The sign with which a comment would begin, at a place of a text. `None`: there is none.
fn sign_at_front(text: &[u8]) -> Option<&'static str> {
    match text {
        [b'#'] | [b'#', b' ', ..] => Some("#"),
        [b';', b' ', ..] => Some(";"),
        _ => pair_at(text),
    }
}

/// The sign with which a comment would begin, at the front of a row. `None`: the row begins with none.
pub fn comment_sign(row: &str) -> Option<&'static str> {
    match blanks_aside(row) {
        [b'#', ..] => Some("#"),
        [b';', ..] => Some(";"),
        text => pair_at(text),
    }
}

/// The first two signs in a row with which a comment would begin. `None`: there are none.
fn pair_in(row: &[u8]) -> Option<&'static str> {
    for at in 0..row.len() {
        if let Some(sign) = pair_at(row.get(at..).unwrap_or(b"")) {
            return Some(sign);
        }
    }
    None
}

/// Tells that no comment begins so.
fn told_of_sign(alloc: Global, sign: Option<&str>) -> Result<Option<String>, AllocError> {
    let Some(sign) = sign else {
        return Ok(None);
    };
    let text = format!(in alloc;
        "No comment begins with {sign} here: a comment is a row of its own, (* .. *).\n"
    )?;
    Ok(Some(text))
}

/// What is told of a comment that is written as elsewhere: at the front of a row, or in a column, counted from 0.
pub fn told_of_comment(
    alloc: Global,
    row: &str,
    column: usize,
) -> Result<Option<String>, AllocError> {
    let behind = row.as_bytes().get(column..).unwrap_or(b"");
    told_of_sign(alloc, comment_sign(row).or(sign_at_front(behind)))
}

/// What is told of a comment that is written as elsewhere: anywhere in a row.
pub fn told_of_comments(alloc: Global, row: &str) -> Result<Option<String>, AllocError> {
    told_of_sign(alloc, comment_sign(row).or(pair_in(row.as_bytes())))
}
