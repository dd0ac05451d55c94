//! The word of a plant at which it is refused, and what could stand there.

use crate::further::row_of;
use plant::{Plant, PlantFault, PlantFaultKind};
use slips::{push_word, row_at, rows_of};
use std::alloc::{AllocError, Global};
use std::fmt::Write;

/// Longer texts aren't read again for each word of a line.
const LONGEST: usize = 65_536;
/// Nor are they for longer lines.
const WIDEST: usize = 500;

/// The marks and keywords of a plant outside bodies, which are told as they are.
const FIXED: [&str; 26] = [
    ";",
    ":",
    ",",
    ".",
    ":=",
    "(",
    ")",
    "VAR_INPUT",
    "VAR_OUTPUT",
    "VAR",
    "RETAIN",
    "END_VAR",
    "PROGRAM",
    "END_PROGRAM",
    "CONFIGURATION",
    "END_CONFIGURATION",
    "RESOURCE",
    "END_RESOURCE",
    "ON",
    "TASK",
    "WITH",
    "INTERVAL",
    "PRIORITY",
    "BOOL",
    "INT",
    "TIME",
];

/// A word for all of its kind, and how these are told.
#[derive(Clone, Copy)]
struct Example {
    word: &'static str,
    told: &'static str,
}

/// The other words of a plant.
const EXAMPLES: [Example; 5] = [
    Example {
        word: "TON",
        told: "a block type",
    },
    Example {
        word: "Q_Q9",
        told: "a name",
    },
    Example {
        word: "7",
        told: "a number from 0 to 65535",
    },
    Example {
        word: "T#7s",
        told: "a duration from T#1ms to T#2147483647ms",
    },
    Example {
        word: "%IX7",
        told: "an address",
    },
];

/// A word of a text: from this byte up to that one, and its column from 1.
#[derive(Clone, Copy)]
struct Found {
    first: usize,
    end: usize,
    column: usize,
}

fn is_in_word(sign: u8) -> bool {
    sign.is_ascii_alphanumeric() || sign == b'_' || sign == b'#' || sign == b'%' || sign == b'.'
}

/// How many signs the word has with which a text begins.
fn word_length(text: &[u8]) -> usize {
    match text {
        [b':', b'=', ..] => 2,
        _ => text
            .iter()
            .take_while(|sign| is_in_word(**sign))
            .count()
            .max(1),
    }
}

/// How many signs the comment has with which a text begins, on this line.
fn comment_length(text: &[u8]) -> usize {
    let pairs = text.iter().zip(text.iter().skip(1));
    for (at, (sign, next)) in pairs.enumerate() {
        if *sign == b'*' && *next == b')' {
            return at.saturating_add(2);
        }
    }
    text.len()
}

/// The fault of a text that goes on so behind its first bytes, and then ends. `None`: it has none, or there is no memory.
fn fault_of(alloc: Global, text: &[u8], next: &str) -> Result<Option<PlantFault>, AllocError> {
    let mut tried = String::from_utf8_lossy(alloc, text)?;
    tried.push_str(" ")?;
    tried.push_str(next)?;
    tried.push_str("\n\n")?;
    match Plant::read(alloc, tried.as_str()) {
        Ok(_plant) => Ok(None),
        Err(fault) => Ok(Some(fault)),
    }
}

/// Whether a text that goes on so is refused on this line.
fn is_refused(alloc: Global, text: &[u8], next: &str, line: u64) -> Result<bool, AllocError> {
    Ok(fault_of(alloc, text, next)?.is_some_and(|fault| fault.line == line))
}

/// Whether this word can't stand behind a text, on this line.
fn is_misplaced(alloc: Global, text: &[u8], next: &str, line: u64) -> Result<bool, AllocError> {
    Ok(fault_of(alloc, text, next)?.is_some_and(|fault| fault.line == line
        && fault.kind == PlantFaultKind::Syntax))
}

/// The first word of a line up to which the text is refused there.
fn find_word(
    alloc: Global,
    text: &str,
    line: &str,
    start: usize,
    number: u64,
) -> Result<Option<Found>, AllocError> {
    let row = line.as_bytes();
    let mut next = 0;
    for (at, sign) in row.iter().enumerate() {
        if next <= at && !sign.is_ascii_whitespace() {
            let rest = row.get(at..).unwrap_or(b"");
            let first = start.saturating_add(at);
            if rest.starts_with(b"(*") {
                next = at.saturating_add(comment_length(rest));
            } else {
                let length = word_length(rest);
                let end = first.saturating_add(length);
                let beginning = text.as_bytes().get(..end).unwrap_or(b"");
                if is_refused(alloc, beginning, "", number)? {
                    let column = at.saturating_add(1);
                    return Ok(Some(Found { first, end, column }));
                }
                next = at.saturating_add(length);
            }
        }
    }
    Ok(None)
}

/// The byte with which a row begins.
fn start_of(rows: &[&str], row: usize) -> usize {
    let mut start: usize = 0;
    for above in rows.iter().take(row) {
        start = start.saturating_add(above.len()).saturating_add(1);
    }
    start
}

/// Adds those of some words that could stand behind a text on this line.
fn add_fixed<'a>(
    alloc: Global,
    told: &mut Vec<&'a str>,
    text: &[u8],
    line: u64,
    words: &[&'a str],
) -> Result<(), AllocError> {
    for word in words {
        if !is_misplaced(alloc, text, word, line)? {
            told.push(*word)?;
        }
    }
    Ok(())
}

/// Adds how those kinds of words are told that could stand behind a text on this line.
fn add_examples<'a>(
    alloc: Global,
    told: &mut Vec<&'a str>,
    text: &[u8],
    line: u64,
    examples: &[Example],
) -> Result<(), AllocError> {
    for example in examples {
        if !is_misplaced(alloc, text, example.word, line)? {
            told.push(example.told)?;
        }
    }
    Ok(())
}

/// The words that could stand behind a text on this line.
fn nexts(alloc: Global, text: &[u8], line: u64) -> Result<Vec<&'static str>, AllocError> {
    let mut told = Vec::new(alloc);
    add_fixed(alloc, &mut told, text, line, &FIXED)?;
    add_examples(alloc, &mut told, text, line, &EXAMPLES)?;
    Ok(told)
}

/// Writes words, parted by commas, and the last two by an `or`.
fn push_choice(text: &mut String, words: &[&str]) -> Result<(), AllocError> {
    for (number, word) in words.iter().enumerate() {
        if 0 < number {
            let is_last = number.saturating_add(1) == words.len();
            text.push_str(if is_last { " or " } else { ", " })?;
        }
        text.push_str(word)?;
    }
    Ok(())
}

/// The column of the word of a plant at which it is refused, and where it can't stand there, what could.
pub fn told_of_place(
    alloc: Global,
    text: &str,
    fault: PlantFault,
) -> Result<Option<String>, AllocError> {
    let rows = rows_of(alloc, text)?;
    let row = row_of(fault.line);
    let line = row_at(&rows, row);
    if LONGEST < text.len() || WIDEST < line.len() {
        return Ok(None);
    }
    let start = start_of(&rows, row);
    let Some(found) = find_word(alloc, text, line, start, fault.line)? else {
        return Ok(None);
    };
    let column = found.column;
    let mut told = format!(in alloc; "Column {column}, at ")?;
    push_word(
        &mut told,
        text.as_bytes().get(found.first..found.end).unwrap_or(b""),
    )?;
    if fault.kind == PlantFaultKind::Syntax {
        let before = text.as_bytes().get(..found.first).unwrap_or(b"");
        told.push_str(": expected ")?;
        push_choice(&mut told, &nexts(alloc, before, fault.line)?)?;
    }
    told.push_str("\n")?;
    Ok(Some(told))
}
